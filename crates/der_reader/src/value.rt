//! Values, taken from the front of some bytes.
ghost use Rattle.std.specs.Prelude.{ℕ, List, ◌≡◌, ◌≤◌, ◌<◌, length, IfOk, OnErr};
ghost use Rattle.der_reader.specs.Value.{Begins, BeginsNone};
ghost use Rattle.der_reader.specs.Fault.{Gives, GivesValue, length_at, long_length_at};

use crate::fault::DerFault;
use crate::number::number_of;

/// Takes the first value, which has this tag: its content, and the bytes after it. Takes no memory.
pub fn take_value(bytes: &[u8], tag: u8) -> Result<(&[u8], &[u8]), DerFault>
    ensures spelled { IfOk result (λ taken. Begins tag bytes.now taken.0.now taken.1.now) }
    ensures none { OnErr result (BeginsNone tag bytes.now) }
    ensures exact { GivesValue tag bytes.now result }
{
    take_first(bytes, tag)
}

// The same by the rules alone.
fn take_first(bytes: &[u8], tag: u8) -> Result<(&[u8], &[u8]), DerFault>
    ensures { GivesValue tag bytes.now result }
{
    let (first, rest) = bytes.split_first().ok_or(DerFault::Truncated)?;
    if *first != tag {
        return Err(DerFault::Tag);
    }
    let (length, rest) = take_length(rest)?;
    if rest.len() < length {
        return Err(DerFault::Truncated);
    }
    Ok(rest.split_at(length))
}

// Takes a length.
fn take_length(bytes: &[u8]) -> Result<(usize, &[u8]), DerFault>
    ensures { Gives (λ x. (x.0, x.1.now)) result (length_at bytes.now) }
{
    let (first, rest) = bytes.split_first().ok_or(DerFault::Truncated)?;
    match *first {
        0..=0x7F => Ok((usize::from(*first), rest)),
        0x81..=0x84 => take_long_length(rest, usize::from(*first - 0x80)),
        _ => Err(DerFault::Length),
    }
}

// Takes a length of so many bytes.
fn take_long_length(bytes: &[u8], count: usize) -> Result<(usize, &[u8]), DerFault>
    requires some { 0 < count }
    requires few { count ≤ 4 }
    ensures { Gives (λ x. (x.0, x.1.now)) result (long_length_at count bytes.now) }
{
    if bytes.len() < count {
        return Err(DerFault::Truncated);
    }
    let (digits, rest) = bytes.split_at(count);
    let length = number_of(digits);
    if digits[0] == 0 || length < 128 {
        return Err(DerFault::Length);
    }
    Ok((length as usize, rest))
}
