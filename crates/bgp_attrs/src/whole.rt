//! Whether bytes are prefixes or segments, and nothing else.
ghost use Rattle.std.specs.Prelude.{◌≡◌, List, IfSome, IfNone};
ghost use Rattle.path_model.specs.declared.nlri.Nlri.{Nlri as AnyNlri};
ghost use Rattle.bgp_attrs.specs.Joined.{IsJoined};
ghost use Rattle.bgp_attrs.specs.Left.{segments_left, prefixes_left};
ghost use Rattle.bgp_attrs.specs.Prefixes.{IsNlri};
ghost use Rattle.bgp_attrs.specs.Reading.{IsPath};
ghost use Rattle.bgp_attrs.specs.Segments.{Segment};

use crate::pieces::{Prefixes, Segments};
use crate::splitting::take_segment;
use crate::taking::take_nlri;

/// The prefixes that the bytes spell, of IPv6 or else of IPv4; `None` exactly where the bytes aren't whole prefixes of that family. It
/// takes no memory.
///
/// `add_path` says that each prefix has a path identifier of four bytes before it (RFC 7911, section 3), which may be any number; without
/// it none has one.
pub fn prefixes(bytes: &[u8], six: bool, add_path: bool) -> Option<Prefixes<'_>>
    ensures some { IfSome result (λ found.
        IsJoined (IsNlri add_path six) bytes.now (prefixes_left found)) }
    ensures none { IfNone result ((list : List AnyNlri) →
        IsJoined (IsNlri add_path six) bytes.now list → ⊥) }
{
    let mut rest = bytes;
    while !rest.is_empty() {
        let Some((_, more)) = take_nlri(rest, six, add_path) else {
            return None;
        };
        rest = more;
    }
    Some(Prefixes {
        rest: bytes,
        six,
        add_path,
    })
}

// The segments that the bytes spell.
pub(crate) fn segments(bytes: &[u8], wide: bool) -> Option<Segments<'_>>
    ensures same { IfSome result (λ found. found.rest.now ≡ bytes.now) }
    ensures some { IfSome result (λ found. IsPath wide bytes.now (segments_left found)) }
    ensures none { IfNone result ((list : List Segment) → IsPath wide bytes.now list → ⊥) }
{
    let mut rest = bytes;
    while !rest.is_empty() {
        let (_, more) = take_segment(rest, wide)?;
        rest = more;
    }
    Some(Segments { rest: bytes, wide })
}
