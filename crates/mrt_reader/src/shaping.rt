//! The parts of a RIB record in its body.
ghost use Rattle.std.specs.Prelude.{◌≡◌, length, List, IfSome, IfNone};
ghost use Rattle.bgp_attrs.specs.Joined.{IsJoined};
ghost use Rattle.mrt_reader.specs.Left.{entries_left, rib_of};
ghost use Rattle.mrt_reader.specs.Ribs.{Entry, Rib, IsEntry, IsCounted, IsRib};

use crate::entries::Entries;
use crate::parts::RibParts;
use crate::splitting::take_entry;
use bgp_attrs::take_prefix;

// The parts of a body, where it is in form.
pub(crate) fn rib_parts(body: &[u8], six: bool, add_path: bool) -> Option<RibParts<'_>>
    ensures some { IfSome result (λ parts. IsRib add_path six body.now (rib_of parts)) }
    ensures none { IfNone result ((rib : Rib) → IsRib add_path six body.now rib → ⊥) }
{
    if body.len() < 4 {
        return None;
    }
    let (_, behind) = body.split_at(4);
    match take_prefix(behind, six) {
        Some(taken) => match counted_entries(taken.1, add_path) {
            Some((entries, count)) => Some(RibParts {
                prefix: taken.0,
                entries,
                count,
            }),
            None => None,
        },
        None => None,
    }
}

// The entries behind their count, and this.
fn counted_entries(bytes: &[u8], add_path: bool) -> Option<(Entries<'_>, usize)>
    ensures some { IfSome result (λ x. IsCounted add_path bytes.now (entries_left x.0)) }
    ensures none { IfNone result ((es : List Entry) → IsCounted add_path bytes.now es → ⊥) }
{
    match bytes {
        [high, low, rest @ ..] => {
            let (found, number) = entries(rest, add_path)?;
            if number != usize::from(u16::from_be_bytes([*high, *low])) {
                return None;
            }
            Some((found, number))
        }
        _ => None,
    }
}

// The entries that the bytes spell, and how many they are.
fn entries(bytes: &[u8], add_path: bool) -> Option<(Entries<'_>, usize)>
    ensures some { IfSome result (λ x. IsJoined (IsEntry add_path) bytes.now (entries_left x.0)) }
    ensures number { IfSome result (λ x. x.1 ≡ length (entries_left x.0)) }
    ensures none { IfNone result ((es : List Entry) → IsJoined (IsEntry add_path) bytes.now es → ⊥) }
{
    let mut rest = bytes;
    let mut number = 0;
    while !rest.is_empty() {
        let (_, more) = take_entry(rest, add_path)?;
        rest = more;
        number += 1;
    }
    Some((
        Entries {
            rest: bytes,
            add_path,
        },
        number,
    ))
}
