//! Numbers as text.
ghost use Rattle.std.specs.Prelude.{◌≡◌, ◌≤◌, ◌++◌, ℕ, Some, IfSome, IfNone, OnOk, OnErr, decimal};
ghost use Rattle.std.specs.Str.Parse.{AllDigits, digits_value};
ghost use Rattle.av_text.specs.Number.{IsNumber, IsNoNumber};

use av_base::NoMemory;
use itoa::Buffer;

/// Reads a whole text as a number from 0 to 4,294,967,295: decimal digits without a sign and
/// without a leading zero, but for `0` itself. Takes no memory, and one step for each byte.
#[tactic(auto, using(crate::proofs::NumberLemmas::number_steps))]
pub fn read_u32(text: &[u8]) -> Option<u32>
    ensures number { IfSome result (IsNumber text.now) }
    ensures none { IfNone result (IsNoNumber text.now) }

    // What was put is read again as itself.
    ensures again { (n : ℕ) → IsNumber text.now n → result ≡ Some n }
{
    if text.is_empty() {
        return None;
    }
    if text.len() > 1 && text[0] == b'0' {
        return None;
    }
    read_digits(text)
}

// The number that digits write, leading zeros or not.
#[tactic(auto, using(crate::proofs::NumberLemmas::digit_steps))]
fn read_digits(text: &[u8]) -> Option<u32>
    ensures digits { IfSome result (λ _. AllDigits 10 text.now) }
    ensures number { IfSome result (λ n. n ≡ digits_value 10 text.now) }
    ensures none { IfNone result (IsNoNumber text.now) }
{
    let mut value: u32 = 0;
    for byte in text {
        let digit = char::from(*byte).to_digit(10)?;
        value = value.checked_mul(10)?.checked_add(digit)?;
    }
    Some(value)
}

/// Appends a number in decimal digits: one to twenty bytes.
pub fn put_u64(out: &mut Vec<u8>, n: u64) -> Result<(), NoMemory>
    ensures ok { OnOk result (out.new.items ≡ out.old.items ++ decimal n) }
    ensures err { OnErr result (out.new.items ≡ out.old.items) }
{
    let mut buffer = Buffer::new();
    out.extend_from_slice(buffer.format(n).as_bytes())?;
    Ok(())
}
