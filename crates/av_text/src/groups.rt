//! Groups of four hexadecimal digits with colons between them, as in an IPv6 address written in full.
ghost use Rattle.std.specs.Prelude.{◌≡◌, ◌≢◌, ℕ, ◌<◌, ◌≤◌, ◌+◌, ◌^◌, ◌++◌, IfSome, IfNone, OnOk, OnErr};
ghost use Rattle.std.specs.Char.{digit_char};
ghost use Rattle.av_text.specs.AddressText.{hex4, groups_text};
ghost use Rattle.av_text.specs.Parts.{IsParts, IsNoParts, IsGrown};

use crate::marks::cut;
use av_base::NoMemory;

/// Reads groups with so many colons, at most 7, between them.
pub(crate) fn read_groups(text: &[u8], colons: u32) -> Option<u128>
    requires { colons ≤ 7 }
    ensures some { IfSome result (IsParts hex4 58 65536 colons text.now) }
    ensures none { IfNone result (IsNoParts hex4 58 65536 colons text.now) }
{
    if colons == 0 {
        return read_group(text);
    }
    let (first, rest) = cut(text, b':')?;
    let high = read_group(first)?;
    let low = read_groups(rest, colons - 1)?;
    Some(high * 65_536u128.pow(colons) + low)
}

// Reads four lower-case hexadecimal digits.
fn read_group(text: &[u8]) -> Option<u128>
    ensures some { IfSome result (λ n. (n < 65536) × (text.now ≡ hex4 n)) }
    ensures none { IfNone result ((n : ℕ) → n < 65536 → text.now ≢ hex4 n) }
{
    let [a, b, c, d] = text else {
        return None;
    };
    let (a, b, c, d) = (
        digit_value(*a)?,
        digit_value(*b)?,
        digit_value(*c)?,
        digit_value(*d)?,
    );
    Some(u128::from(4096 * a + 256 * b + 16 * c + d))
}

// The value of a lower-case hexadecimal digit.
fn digit_value(byte: u8) -> Option<u32>
    ensures some { IfSome result (λ d. (d < 16) × (byte ≡ digit_char d)) }
    ensures none { IfNone result ((d : ℕ) → d < 16 → byte ≢ digit_char d) }
{
    match byte {
        b'0'..=b'9' => Some(u32::from(byte - b'0')),
        b'a'..=b'f' => Some(u32::from(byte - b'a' + 10)),
        _ => None,
    }
}

/// Appends a number as groups with so many colons, at most 7, between them. Where it fails, a part may stand there.
pub(crate) fn put_groups(out: &mut Vec<u8>, number: u128, colons: u32) -> Result<(), NoMemory>
    requires few { colons ≤ 7 }
    requires small { number < 65536 ^ (colons + 1) }
    ensures ok { OnOk result (out.new.items ≡ out.old.items ++ groups_text colons number) }
    ensures grown { IsGrown out.old.items out.new.items }
{
    if colons == 0 {
        return put_group(out, number);
    }
    let scale = 65_536u128.pow(colons);
    put_group(out, number / scale)?;
    out.push(b':')?;
    put_groups(out, number % scale, colons - 1)
}

// Appends four lower-case hexadecimal digits.
fn put_group(out: &mut Vec<u8>, group: u128) -> Result<(), NoMemory>
    requires { group < 65536 }
    ensures ok { OnOk result (out.new.items ≡ out.old.items ++ hex4 group) }
    ensures err { OnErr result (out.new.items ≡ out.old.items) }
{
    let group = group as u32;
    out.extend_from_slice(&[
        digit(group / 4096),
        digit(group / 256 % 16),
        digit(group / 16 % 16),
        digit(group % 16),
    ])?;
    Ok(())
}

// The lower-case hexadecimal digit of a number.
fn digit(value: u32) -> u8
    requires { value < 16 }
    ensures { result ≡ digit_char value }
{
    let value = value as u8;
    if value < 10 {
        b'0' + value
    } else {
        b'a' + (value - 10)
    }
}
