//! First items of paths and of attribute fields.
ghost use Rattle.std.specs.Prelude.{◌≡◌, ◌≤◌, IfSome, option_map};
ghost use Rattle.bgp_attrs.specs.Attributes.{field_at};
ghost use Rattle.bgp_attrs.specs.Blocks.{length_at};
ghost use Rattle.bgp_attrs.specs.Left.{ases_left, field_of};
ghost use Rattle.bgp_attrs.specs.Segments.{is_kind as kind_test, segment_at};

use crate::fixed::{as_size, take, take_byte, take_two};
use crate::pieces::{Ases, Attribute};

fn is_kind(kind: u8) -> bool
    ensures { result ≡ kind_test kind }
{
    kind >= 1 && kind <= 4
}

// The first segment.
#[tactic(auto, unfolding(crate::specs::Segments::segment_at))]
pub(crate) fn take_segment(bytes: &[u8], wide: bool) -> Option<((u8, Ases<'_>), &[u8])>
    ensures { option_map (λ x. ((x.0.0, ases_left x.0.1), x.1.now)) result
        ≡ segment_at wide bytes.now }
{
    match bytes {
        [kind, count, rest @ ..] => {
            let size = as_size(wide) * usize::from(*count);
            if is_kind(*kind) && *count > 0 && size <= rest.len() {
                let (ases, rest) = rest.split_at(size);
                Some(((*kind, Ases { rest: ases, wide }), rest))
            } else {
                None
            }
        }
        _ => None,
    }
}

// The length of an attribute, in two bytes if it is extended, else in one.
#[inline(always)]
fn take_length(bytes: &[u8], extended: bool) -> Option<(usize, &[u8])>
    ensures read { option_map (λ x. (x.0, x.1.now)) result ≡ length_at extended bytes.now }
    ensures short { IfSome result (λ x. x.0 ≤ 65535) }
{
    if extended {
        let (count, rest) = take_two(bytes)?;
        Some((usize::from(count), rest))
    } else {
        let (count, rest) = take_byte(bytes)?;
        Some((usize::from(count), rest))
    }
}

// The first attribute.
#[tactic(auto, unfolding(crate::specs::Attributes::field_at))]
#[inline(always)]
pub(crate) fn take_attribute(bytes: &[u8]) -> Option<(Attribute<'_>, &[u8])>
    ensures { option_map (λ x. (field_of x.0, x.1.now)) result ≡ field_at bytes.now }
{
    match bytes {
        [flags, kind, rest @ ..] => {
            let (count, rest) = take_length(rest, *flags & 0x10 != 0)?;
            let (content, rest) = take(rest, count)?;
            Some((
                Attribute {
                    kind: *kind,
                    content,
                },
                rest,
            ))
        }
        _ => None,
    }
}
