//! Values and INTEGERs, appended.
ghost use Rattle.std.specs.Prelude.{◌≡◌, ◌<◌, ◌^◌, [], ◌∷◌, ◌++◌, length, OnOk, OnErr};
ghost use Rattle.der_reader.specs.Number.{number};
ghost use Rattle.der_reader.specs.Writing.{Appends, PutsInteger, PutsLength, PutsValue};

use av_base::NoMemory;

// The longest content that has a spelling, in bytes.
const MAX_LENGTH: usize = 0xFFFF_FFFF;

/// Appends a value. Content of 4 GiB and more has no spelling, and counts as want of memory.
pub fn put_value(out: &mut Vec<u8>, tag: u8, content: &[u8]) -> Result<(), NoMemory>
    ensures ok { OnOk result (PutsValue out.old.items out.new.items tag content.now) }
    ensures err { OnErr result (out.new.items ≡ out.old.items) }
{
    let start = out.len();
    let put = append_value(out, tag, content);
    if put.is_err() {
        out.truncate(start);
    }
    put
}

// Appends a value. Some of it may stand there after want of memory.
fn append_value(out: &mut Vec<u8>, tag: u8, content: &[u8]) -> Result<(), NoMemory>
    ensures ok { OnOk result (PutsValue out.old.items out.new.items tag content.now) }
    ensures err { OnErr result (Appends out.old.items out.new.items) }
{
    if content.len() > MAX_LENGTH {
        return Err(NoMemory);
    }
    out.push(tag)?;
    put_length(out, content.len())?;
    put(out, content)
}

// Appends a length.
fn put_length(out: &mut Vec<u8>, n: usize) -> Result<(), NoMemory>
    requires { n < 2 ^ 32 }
    ensures ok { OnOk result (PutsLength out.old.items out.new.items n) }
    ensures err { OnErr result (out.new.items ≡ out.old.items) }
{
    let (a, b, c, d) = digits_of(n as u32);
    match n {
        0..=0x7F => put(out, &[d]),
        0x80..=0xFF => put(out, &[0x81, d]),
        0x100..=0xFFFF => put(out, &[0x82, c, d]),
        0x1_0000..=0xFF_FFFF => put(out, &[0x83, b, c, d]),
        _ => put(out, &[0x84, a, b, c, d]),
    }
}

/// Appends an INTEGER: three to seven bytes.
pub fn put_u32(out: &mut Vec<u8>, n: u32) -> Result<(), NoMemory>
    ensures ok { OnOk result (PutsInteger out.old.items out.new.items n) }
    ensures err { OnErr result (out.new.items ≡ out.old.items) }
{
    let (a, b, c, d) = digits_of(n);
    match n {
        0..=0x7F => put(out, &[2, 1, d]),
        0x80..=0x7FFF => put(out, &[2, 2, c, d]),
        0x8000..=0x7F_FFFF => put(out, &[2, 3, b, c, d]),
        0x80_0000..=0x7FFF_FFFF => put(out, &[2, 4, a, b, c, d]),
        _ => put(out, &[2, 5, 0, a, b, c, d]),
    }
}

// The four bytes of a number, the highest first.
fn digits_of(n: u32) -> (u8, u8, u8, u8)
    ensures { number (result.0 ∷ result.1 ∷ result.2 ∷ result.3 ∷ []) ≡ n }
{
    let [a, b, c, d] = n.to_be_bytes();
    (a, b, c, d)
}

// Appends bytes.
fn put(out: &mut Vec<u8>, bytes: &[u8]) -> Result<(), NoMemory>
    ensures ok { OnOk result (out.new.items ≡ out.old.items ++ bytes.now) }
    ensures err { OnErr result (out.new.items ≡ out.old.items) }
{
    out.extend_from_slice(bytes)?;
    Ok(())
}
