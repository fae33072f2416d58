//! INTEGERs of 32 bits, taken from the front of some bytes.
ghost use Rattle.std.specs.Prelude.{◌≡◌, ◌≤◌, ◌<◌, ◌^◌, slice_index, IfOk, OnErr, IfSome, IfNone};
ghost use Rattle.der_reader.specs.Number.{number};
ghost use Rattle.der_reader.specs.Integer.{IsInteger, TakesInteger, TakesNone};
ghost use Rattle.der_reader.specs.Fault.{GivesInteger};

use crate::fault::DerFault;
use crate::number::number_of;
use crate::value::take_value;

// The tag of an INTEGER.
const INTEGER: u8 = 0x02;

/// Takes the first INTEGER: its number, and the bytes after it. Takes no memory.
pub fn take_u32(bytes: &[u8]) -> Result<(u32, &[u8]), DerFault>
    ensures integer { IfOk result (λ taken. TakesInteger bytes.now taken.0 taken.1.now) }
    ensures none { OnErr result (TakesNone bytes.now) }
    ensures exact { GivesInteger bytes.now result }
{
    take_integer(bytes)
}

// The same by the rules alone.
fn take_integer(bytes: &[u8]) -> Result<(u32, &[u8]), DerFault>
    ensures { GivesInteger bytes.now result }
{
    let (content, rest) = take_value(bytes, INTEGER)?;
    match read_integer(content) {
        Some(number) => Ok((number, rest)),
        None => Err(DerFault::Integer),
    }
}

// The number of a content.
fn read_integer(content: &[u8]) -> Option<u32>
    ensures some { IfSome result (IsInteger content.now) }
    ensures none { IfNone result ((n : _) → IsInteger content.now n → ⊥) }
{
    let (first, rest) = content.split_first()?;
    if *first >= 0x80 {
        return None;
    }
    if *first != 0 {
        return read_digits(content);
    }
    match rest.first() {
        None => Some(0),
        Some(second) if *second >= 0x80 => read_digits(rest),
        Some(_) => None,
    }
}

// The number of bytes without a zero at the front, if it has 32 bits.
#[tactic(auto, using(crate::proofs::NumberLemmas::number_big))]
fn read_digits(digits: &[u8]) -> Option<u32>
    requires { 0 < slice_index digits.now 0 }
    ensures some { IfSome result (λ n. n ≡ number digits.now) }
    ensures none { IfNone result (2 ^ 32 ≤ number digits.now) }
{
    if digits.len() > 4 {
        return None;
    }
    Some(number_of(digits))
}
