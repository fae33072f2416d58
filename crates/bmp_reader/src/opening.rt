//! OPEN messages, and the lists of triples in them.
ghost use Rattle.std.specs.Prelude.{◌≡◌, option_map};
ghost use Rattle.bmp_reader.specs.Left.{open_of, triple_of};
ghost use Rattle.bmp_reader.specs.Readers.{left_of, opening_at, open_at, triple_at};

use bgp_attrs::{take, take_byte, take_two};
use bgp_update::after_marker;

// The bytes of an OPEN before its optional parameters.
const FRONT: usize = 29;

/// What is read of an OPEN: how many bytes of optional parameters it says that it has, and the bytes that it has.
#[derive(Clone, Copy, Debug)]
pub(crate) struct OpenParts<'a> {
    pub(crate) parameters: &'a [u8],
    pub(crate) count: u8,
}

/// An optional parameter by its type, or a capability by its code, with its value.
#[derive(Clone, Copy, Debug)]
pub(crate) struct OpenTriple<'a> {
    pub(crate) value: &'a [u8],
    pub(crate) code: u8,
}

// The OPEN in front.
#[tactic(auto, unfolding(crate::specs::Readers::open_at))]
pub(crate) fn take_open(bytes: &[u8]) -> Option<(OpenParts<'_>, &[u8])>
    ensures { option_map (λ x. (open_of x.0, x.1.now)) result ≡ open_at bytes.now }
{
    let (size, rest) = take_opening(bytes)?;
    let (_, rest) = take(rest, 9)?;
    let (count, rest) = take_byte(rest)?;
    let (parameters, rest) = take_left(rest, size)?;
    Some((OpenParts { parameters, count }, rest))
}

// The size of an OPEN, and the bytes behind its type.
#[tactic(auto, using(crate::proofs::OpenLemmas::behind_some), unfolding(crate::specs::Readers::opening_at))]
fn take_opening(bytes: &[u8]) -> Option<(usize, &[u8])>
    ensures { option_map (λ x. (x.0, x.1.now)) result ≡ opening_at bytes.now }
{
    let rest = after_marker(bytes)?;
    let (size, rest) = take_two(rest)?;
    match rest {
        [1, rest @ ..] => Some((usize::from(size), rest)),
        _ => None,
    }
}

// The optional parameters of an OPEN of this size, behind its other fields.
fn take_left(bytes: &[u8], size: usize) -> Option<(&[u8], &[u8])>
    ensures { option_map (λ x. (x.0.now, x.1.now)) result ≡ left_of 29 size bytes.now }
{
    if size < FRONT {
        return None;
    }
    take(bytes, size - FRONT)
}

// The triple in front.
#[tactic(auto, unfolding(crate::specs::Readers::triple_at))]
pub(crate) fn take_triple(bytes: &[u8]) -> Option<(OpenTriple<'_>, &[u8])>
    ensures { option_map (λ x. (triple_of x.0, x.1.now)) result ≡ triple_at bytes.now }
{
    match bytes {
        [code, size, rest @ ..] => {
            let (value, rest) = take(rest, usize::from(*size))?;
            Some((OpenTriple { value, code: *code }, rest))
        }
        _ => None,
    }
}
