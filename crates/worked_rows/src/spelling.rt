//! Numbers, and text in which a backslash stands before `n`, `r`, `t`, or `x` and two digits of a byte.
use crate::trouble::Trouble;

/// A number in decimal digits.
pub fn number_of(text: &str) -> Result<usize, Trouble> {
    match text.parse::<usize>() {
        Ok(number) => Ok(number),
        Err(_) => Err(Trouble::Line),
    }
}

/// Two parts, parted by the first one of a sign.
pub fn parted(text: &str, sign: char) -> Result<(&str, &str), Trouble> {
    match text.split_once(sign) {
        Some(parts) => Ok(parts),
        None => Err(Trouble::Line),
    }
}

/// Appends the bytes that a text stands for.
pub fn put_text(out: &mut Vec<u8>, text: &str) -> Result<(), Trouble> {
    let mut pieces = text.split('\\');
    if let Some(plain) = pieces.next() {
        out.extend_from_slice(plain.as_bytes())?;
    }
    for piece in pieces {
        put_escaped(out, piece.as_bytes())?;
    }
    Ok(())
}

// What stands behind a backslash, and the plain text behind that.
fn put_escaped(out: &mut Vec<u8>, piece: &[u8]) -> Result<(), Trouble> {
    let (byte, plain) = match piece {
        [b'n', plain @ ..] => (b'\n', plain),
        [b'r', plain @ ..] => (b'\r', plain),
        [b't', plain @ ..] => (b'\t', plain),
        [b'x', high, low, plain @ ..] => (
            digit_of(*high)?.wrapping_mul(16) | digit_of(*low)?,
            plain,
        ),
        _ => return Err(Trouble::Line),
    };
    out.push(byte)?;
    out.extend_from_slice(plain)?;
    Ok(())
}

fn digit_of(byte: u8) -> Result<u8, Trouble> {
    match byte {
        b'0'..=b'9' => Ok(byte.wrapping_sub(b'0')),
        b'a'..=b'f' => Ok(byte.wrapping_sub(b'a' - 10)),
        _ => Err(Trouble::Line),
    }
}
