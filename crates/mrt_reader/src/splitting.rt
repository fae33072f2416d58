//! The first entry of a RIB record.
ghost use Rattle.std.specs.Prelude.{◌≡◌, option_map};
ghost use Rattle.mrt_reader.specs.Left.{entry_of};
ghost use Rattle.mrt_reader.specs.Readers.{entry_at};

use crate::entries::RibEntry;
use bgp_attrs::{take, take_block, take_path, take_two};

// The first entry, with its path identifier where entries have one, and the bytes behind it.
#[tactic(auto, unfolding(crate::specs::Readers::entry_at))]
pub(crate) fn take_entry(bytes: &[u8], add_path: bool) -> Option<(RibEntry<'_>, &[u8])>
    ensures { option_map (λ x. (entry_of x.0, x.1.now)) result ≡ entry_at add_path bytes.now }
{
    let (index, rest) = take_two(bytes)?;
    let (_, rest) = take(rest, 4)?;
    let (path, rest) = take_path(rest, add_path)?;
    let (attributes, rest) = take_block(rest)?;
    let entry = RibEntry {
        index,
        path,
        attributes,
    };
    Some((entry, rest))
}
