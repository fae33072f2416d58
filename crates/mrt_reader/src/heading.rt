//! Headers of records.
ghost use Rattle.std.specs.Prelude.{◌≡◌, option_map};
ghost use Rattle.mrt_reader.specs.Headed.{head_of, IsHeaded};
ghost use Rattle.mrt_reader.specs.Records.{head_at};

use crate::fault::FrameFault;

// The bytes of a header.
pub(crate) const HEADER: usize = 12;

// The most bytes of a body.
const LIMIT: usize = 4_194_304;

/// What a header says.
#[derive(Clone, Copy, Debug)]
pub(crate) struct Heading {
    pub(crate) size: usize,
    pub(crate) stamp: u32,
    pub(crate) mrt_type: u16,
    pub(crate) subtype: u16,
}

// The header of the first record, if all of it is held.
pub(crate) fn whole_head(held: &[u8]) -> Result<Option<Heading>, FrameFault>
    ensures { IsHeaded held.now result }
{
    match take_head(held) {
        Some(head) => {
            if head.size > LIMIT {
                return Err(FrameFault::TooLong);
            }
            if held.len() - HEADER < head.size {
                return Ok(None);
            }
            Ok(Some(head))
        }
        None => Ok(None),
    }
}

fn take_head(bytes: &[u8]) -> Option<Heading>
    ensures { option_map head_of result ≡ head_at bytes.now }
{
    match bytes {
        [a, b, c, d, e, f, g, h, i, j, k, l, ..] => Some(Heading {
            size: u32::from_be_bytes([*i, *j, *k, *l]) as usize,
            stamp: u32::from_be_bytes([*a, *b, *c, *d]),
            mrt_type: u16::from_be_bytes([*e, *f]),
            subtype: u16::from_be_bytes([*g, *h]),
        }),
        _ => None,
    }
}
