//! Headers of messages.
ghost use Rattle.std.specs.Prelude.{◌≡◌, length};
ghost use Rattle.bmp_reader.specs.Headed.{IsHeaded, IsSized, head_at};

use crate::fault::BmpFrameFault;
use bgp_attrs::take_byte;

// The version that is read.
const VERSION: u8 = 3;

// The bytes of a header.
pub(crate) const HEADER: usize = 6;

// The most bytes of a message.
const LIMIT: usize = 4_194_304;

/// What a header says: the bytes of the body, and the type.
#[derive(Clone, Copy, Debug)]
pub(crate) struct Heading {
    pub(crate) size: usize,
    pub(crate) kind: u8,
}

// The header of the first message, if all of the message is held.
pub(crate) fn whole_head(held: &[u8]) -> Result<Option<Heading>, BmpFrameFault>
    ensures { IsHeaded held.now result }
{
    match take_byte(held) {
        Some((version, behind)) => {
            if version != VERSION {
                return Err(BmpFrameFault::BmpVersion);
            }
            match take_head(behind) {
                Some((size, kind)) => sized_head(held, size, kind),
                None => Ok(None),
            }
        }
        None => Ok(None),
    }
}

// The length and the type, behind the version.
fn take_head(behind: &[u8]) -> Option<(usize, u8)>
    ensures { result ≡ head_at behind.now }
{
    match behind {
        [a, b, c, d, kind, ..] => Some((u32::from_be_bytes([*a, *b, *c, *d]) as usize, *kind)),
        _ => None,
    }
}

// The header of a message of this length and type, if all of it is held.
fn sized_head(held: &[u8], size: usize, kind: u8) -> Result<Option<Heading>, BmpFrameFault>
    ensures { IsSized (length held.now) size kind result }
{
    if size < HEADER {
        return Err(BmpFrameFault::BmpLength);
    }
    if size > LIMIT {
        return Err(BmpFrameFault::BmpLength);
    }
    if held.len() < size {
        return Ok(None);
    }
    Ok(Some(Heading {
        size: size - HEADER,
        kind,
    }))
}
