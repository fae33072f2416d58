//! Numbers written into the room of a line.
ghost use Rattle.std.specs.Prelude.{◌≡◌, ◌++◌, ◌+◌, ◌≤◌, ◌<◌, length, decimal};
ghost use Rattle.std.specs.Char.{digit_char};
ghost use Rattle.av_text.specs.AddressText.{hex4};
ghost use Rattle.report_text.specs.Writes.{Writes};

use crate::line::ROOM;

/// Writes a number below 256 behind what stands in front of `at`, in one to three decimal digits, and answers where it ends.
#[inline(always)]
pub(crate) fn write_octet(line: &mut [u8; ROOM], at: usize, n: u32) -> usize
    requires room { at + 3 ≤ ROOM }
    requires small { n < 256 }
    ensures written { Writes (decimal n) line.old at line.new result }
    ensures within { at ≤ result }
    ensures end { result ≤ at + 3 }
{
    if n < 10 {
        line[at] = b'0' + n as u8;
        at + 1
    } else if n < 100 {
        line[at] = b'0' + (n / 10) as u8;
        line[at + 1] = b'0' + (n % 10) as u8;
        at + 2
    } else {
        line[at] = b'0' + (n / 100) as u8;
        line[at + 1] = b'0' + (n / 10 % 10) as u8;
        line[at + 2] = b'0' + (n % 10) as u8;
        at + 3
    }
}

/// Writes a number in decimal digits, ten at most.
#[tactic(auto, using(crate::proofs::DigitLemmas::length_most))]
pub(crate) fn write_number(line: &mut [u8; ROOM], at: usize, n: u32) -> usize
    requires { at + 10 ≤ ROOM }
    ensures written { Writes (decimal n) line.old at line.new result }
    ensures within { at ≤ result }
    ensures end { result ≤ at + 10 }
{
    write_digits(line, at, n)
}

// Writes the digits of a number, the last of them behind those of its tenth.
fn write_digits(line: &mut [u8; ROOM], at: usize, n: u32) -> usize
    requires { at + length (decimal n) ≤ ROOM }
    ensures written { Writes (decimal n) line.old at line.new result }
    ensures end { result ≡ at + length (decimal n) }
{
    if n < 10 {
        line[at] = b'0' + n as u8;
        return at + 1;
    }
    let end = write_digits(line, at, n / 10);
    line[end] = b'0' + (n % 10) as u8;
    end + 1
}

/// Writes a number below 65,536 in four lower-case hexadecimal digits.
#[inline(always)]
pub(crate) fn write_group(line: &mut [u8; ROOM], at: usize, group: u32) -> usize
    requires room { at + 4 ≤ ROOM }
    requires small { group < 65536 }
    ensures written { Writes (hex4 group) line.old at line.new result }
    ensures end { result ≡ at + 4 }
{
    line[at] = digit(group / 4096);
    line[at + 1] = digit(group / 256 % 16);
    line[at + 2] = digit(group / 16 % 16);
    line[at + 3] = digit(group % 16);
    at + 4
}

// The lower-case hexadecimal digit of a number.
#[inline(always)]
fn digit(value: u32) -> u8
    requires { value < 16 }
    ensures { result ≡ digit_char value }
{
    let value = value as u8;
    if value < 10 {
        b'0' + value
    } else {
        b'a' + (value - 10)
    }
}
