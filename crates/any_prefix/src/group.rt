//! Groups of hexadecimal digits.
ghost use Rattle.std.specs.Prelude.{◌≡◌, ℕ, ◌<◌, IfSome, IfNone};
ghost use Rattle.any_prefix.specs.Group.{IsHexDigit, IsGroup};

// Reads one to four hexadecimal digits of either case.
pub(crate) fn read_group(text: &[u8]) -> Option<u32>
    ensures some { IfSome result (λ n. IsGroup text.now n × (n < 65536)) }
    ensures none { IfNone result ((n : ℕ) → ¬ IsGroup text.now n) }
{
    let len = text.len();
    if len < 1 {
        return None;
    }
    if len > 4 {
        return None;
    }
    let mut value = 0;
    for byte in text {
        let digit = digit_value(*byte)?;
        value = value * 16 + digit;
    }
    Some(value)
}

// The value of a hexadecimal digit.
fn digit_value(byte: u8) -> Option<u32>
    ensures some { IfSome result (λ d. IsHexDigit byte d × (d < 16)) }
    ensures none { IfNone result ((d : ℕ) → ¬ IsHexDigit byte d) }
    ensures only { IfSome result (λ d. (e : ℕ) → IsHexDigit byte e → e ≡ d) }
{
    match byte {
        b'0'..=b'9' => Some(u32::from(byte - b'0')),
        b'a'..=b'f' => Some(u32::from(byte - b'a' + 10)),
        b'A'..=b'F' => Some(u32::from(byte - b'A' + 10)),
        _ => None,
    }
}
