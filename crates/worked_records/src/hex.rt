//! Bytes written in hexadecimal.
use av_base::NoMemory;
use std::alloc::Global;

// The value of a digit.
fn value(digit: u8) -> Option<u8> {
    match digit {
        b'0'..=b'9' => Some(digit - b'0'),
        b'A'..=b'F' => Some(digit - b'A' + 10),
        _ => None,
    }
}

/// Appends the bytes that pairs of digits write. What is no digit is passed over.
pub(crate) fn put_hex(out: &mut Vec<u8>, text: &str) -> Result<(), NoMemory> {
    let mut high: Option<u8> = None;
    for digit in text.as_bytes() {
        if let Some(low) = value(*digit) {
            high = match high {
                None => Some(low),
                Some(first) => {
                    out.push(first.wrapping_mul(16).wrapping_add(low))?;
                    None
                }
            };
        }
    }
    Ok(())
}

/// The bytes that pairs of digits write.
pub(crate) fn hex(alloc: Global, text: &str) -> Result<Vec<u8>, NoMemory> {
    let mut bytes = Vec::new(alloc);
    put_hex(&mut bytes, text)?;
    Ok(bytes)
}
