//! The line that reports what Only-to-Customer shows of a route.
ghost use Rattle.std.specs.Prelude.{◌≡◌, ◌≢◌, ◌++◌, OnOk, OnErr};
ghost use Rattle.path_model.specs.declared.leak.Leak.TheVariants.{Clean};
ghost use Rattle.report_text.specs.Leaks.{leak_text};

use crate::peer_lines::PeerLines;
use av_base::NoMemory;
use path_model::{Key, Leak};

/// Appends `ADDRESS AS PREFIX RULE OTC`, the peer's address first, whole or not at all. Where the route has a path identifier, ` path ID`
/// stands behind PREFIX. RULE is `customer`, `rs-client` or `peer` (RFC 9234, section 5), and OTC the AS that the attribute names. Where the
/// attribute is malformed, `malformed` stands in place of both. A line has 27 to 132 bytes with its line feed, and what it takes is that
/// room in `out` alone.
pub fn put_leak(out: &mut Vec<u8>, key: &Key, leak: Leak) -> Result<(), NoMemory>
    requires { leak ≢ Clean }
    ensures ok { OnOk result (out.new.items ≡ out.old.items ++ leak_text key.now leak) }
    ensures err { OnErr result (out.new.items ≡ out.old.items) }
{
    let mut lines = PeerLines::new();
    lines.put_leak(out, key, leak)
}
