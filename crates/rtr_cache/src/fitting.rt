//! Whether the rows of a table fit PDUs.
ghost use Rattle.std.specs.Prelude.{◌↔◌, IsTrue};
ghost use Rattle.rtr_cache.specs.Cache.{FitsPdus};

use vap_table::Vaps;

// The most providers that an announcement has room for: the longest PDU has 262,144 bytes, 12 of them before the providers.
const MOST: usize = 65_533;

/// Whether each current row fits a PDU: 65,533 providers at most. It goes over all rows, and takes no memory.
pub fn fits_pdus(table: &Vaps) -> bool
    ensures { IsTrue result ↔ FitsPdus table.now }
{
    for (_, row) in table.entries() {
        if row.len() > MOST {
            return false;
        }
    }
    true
}
