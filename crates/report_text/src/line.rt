//! Addresses, prefixes, verdicts and leaks written into the room of a line.
ghost use Rattle.std.specs.Prelude.{◌≡◌, ◌++◌, ◌∷◌, ◌+◌, ◌≤◌, ◌<◌, [], length, take, decimal};
ghost use Rattle.av_text.specs.AddressText.{addr_text, groups_text, octets_text};
ghost use Rattle.av_text.specs.PrefixText.{prefix_text};
ghost use Rattle.av_text.specs.VerdictText.{verdict_text};
ghost use Rattle.report_text.specs.Change.{mark_text};
ghost use Rattle.report_text.specs.Keys.{identifier_text};
ghost use Rattle.report_text.specs.Leaks.{shown_text};
ghost use Rattle.report_text.specs.Writes.{Writes};

use crate::digits::{write_group, write_number, write_octet};
use path_model::{Addr, Leak, Prefix, Verdict};

/// How many bytes there is room for: no row, and no line of an origin, a leak or a change, has more.
pub(crate) const ROOM: usize = 132;

/// Writes an address behind what stands in front of `at`, and answers where it ends.
#[inline(always)]
pub(crate) fn write_addr(line: &mut [u8; ROOM], at: usize, addr: Addr) -> usize
    requires { at + 39 ≤ ROOM }
    ensures written { Writes (addr_text addr) line.old at line.new result }
    ensures within { at ≤ result }
    ensures end { result ≤ at + 39 }
{
    match addr {
        Addr::V4(bits) => write_octets(line, at, bits),
        Addr::V6(bits) => write_groups(line, at, bits),
    }
}

// Writes an address of IPv4.
#[inline(always)]
fn write_octets(line: &mut [u8; ROOM], at: usize, bits: u32) -> usize
    requires { at + 15 ≤ ROOM }
    ensures written { Writes (octets_text 3 bits) line.old at line.new result }
    ensures within { at ≤ result }
    ensures end { result ≤ at + 15 }
{
    let end = write_octet(line, at, bits / 16_777_216);
    let end = write_behind(line, end, b'.');
    let end = write_octet(line, end, bits / 65_536 % 256);
    let end = write_behind(line, end, b'.');
    let end = write_octet(line, end, bits / 256 % 256);
    let end = write_behind(line, end, b'.');
    write_octet(line, end, bits % 256)
}

// Writes an address of IPv6.
#[inline(always)]
fn write_groups(line: &mut [u8; ROOM], at: usize, bits: u128) -> usize
    requires { at + 39 ≤ ROOM }
    ensures written { Writes (groups_text 7 bits) line.old at line.new result }
    ensures within { at ≤ result }
    ensures end { result ≤ at + 39 }
{
    let end = write_half(line, at, (bits >> 64) as u64);
    let end = write_behind(line, end, b':');
    write_half(line, end, (bits % (1 << 64)) as u64)
}

// Writes the half of an address of IPv6, four groups.
#[inline(always)]
fn write_half(line: &mut [u8; ROOM], at: usize, half: u64) -> usize
    requires { at + 19 ≤ ROOM }
    ensures written { Writes (groups_text 3 half) line.old at line.new result }
    ensures end { result ≡ at + 19 }
{
    let end = write_group(line, at, (half / 281_474_976_710_656) as u32);
    let end = write_behind(line, end, b':');
    let end = write_group(line, end, (half / 4_294_967_296 % 65_536) as u32);
    let end = write_behind(line, end, b':');
    let end = write_group(line, end, (half / 65_536 % 65_536) as u32);
    let end = write_behind(line, end, b':');
    write_group(line, end, (half % 65_536) as u32)
}

/// Writes one byte.
#[inline(always)]
pub(crate) fn write_behind(line: &mut [u8; ROOM], at: usize, byte: u8) -> usize
    requires { at < ROOM }
    ensures written { Writes (byte ∷ []) line.old at line.new result }
    ensures end { result ≡ at + 1 }
{
    line[at] = byte;
    at + 1
}

/// Writes a prefix.
#[inline(always)]
pub(crate) fn write_prefix(line: &mut [u8; ROOM], at: usize, prefix: &Prefix) -> usize
    requires { at + 43 ≤ ROOM }
    ensures written { Writes (prefix_text prefix.now) line.old at line.new result }
    ensures within { at ≤ result }
    ensures end { result ≤ at + 43 }
{
    let end = write_addr(line, at, prefix.addr());
    let end = write_behind(line, end, b'/');
    write_octet(line, end, u32::from(prefix.len()))
}

/// Writes the path identifier behind its word, and nothing where there is none.
#[inline(always)]
pub(crate) fn write_identifier(line: &mut [u8; ROOM], at: usize, path: Option<u32>) -> usize
    requires { at + 16 ≤ ROOM }
    ensures written { Writes (identifier_text path) line.old at line.new result }
    ensures within { at ≤ result }
    ensures end { result ≤ at + 16 }
{
    match path {
        None => at,
        Some(id) => {
            let end = write_bytes(line, at, b" path ");
            write_number(line, end, id)
        }
    }
}

/// Writes the word for a verdict.
#[inline(always)]
pub(crate) fn write_verdict(line: &mut [u8; ROOM], at: usize, verdict: Verdict) -> usize
    requires { at + 7 ≤ ROOM }
    ensures written { Writes (verdict_text verdict) line.old at line.new result }
    ensures within { at ≤ result }
    ensures end { result ≤ at + 7 }
{
    let (word, len) = padded(verdict);
    write_bytes(line, at, word);
    at + len
}

// The word for a verdict, with blanks behind it where it is short, and how long it is. So no branch waits for the verdict.
#[inline(always)]
fn padded(verdict: Verdict) -> (&'static [u8; 7], usize)
    ensures word { take result.1 result.0.now ≡ verdict_text verdict }
    ensures within { result.1 ≤ 7 }
{
    match verdict {
        Verdict::Valid => (b"valid  ", 5),
        Verdict::Unknown => (b"unknown", 7),
        Verdict::Invalid => (b"invalid", 7),
    }
}

/// Writes the word for a verdict, or `none` for none.
#[inline(always)]
pub(crate) fn write_mark(line: &mut [u8; ROOM], at: usize, verdict: Option<Verdict>) -> usize
    requires { at + 7 ≤ ROOM }
    ensures written { Writes (mark_text verdict) line.old at line.new result }
    ensures within { at ≤ result }
    ensures end { result ≤ at + 7 }
{
    match verdict {
        None => write_bytes(line, at, b"none"),
        Some(verdict) => write_verdict(line, at, verdict),
    }
}

/// Writes the rule that a route breaks with the attribute's AS, or that the attribute is malformed.
#[inline(always)]
pub(crate) fn write_shown(line: &mut [u8; ROOM], at: usize, leak: Leak) -> usize
    requires { at + 20 ≤ ROOM }
    ensures written { Writes (shown_text leak) line.old at line.new result }
    ensures within { at ≤ result }
    ensures end { result ≤ at + 20 }
{
    match leak {
        Leak::Clean => at,
        Leak::Customer(asn) => write_rule(line, at, b"customer ", asn),
        Leak::RsClient(asn) => write_rule(line, at, b"rs-client ", asn),
        Leak::Peer(asn) => write_rule(line, at, b"peer ", asn),
        Leak::Malformed => write_bytes(line, at, b"malformed"),
    }
}

// Writes a rule of ten bytes at most and an AS.
#[inline(always)]
fn write_rule(line: &mut [u8; ROOM], at: usize, rule: &[u8], asn: u32) -> usize
    requires room { at + 20 ≤ ROOM }
    requires short { length rule.now ≤ 10 }
    ensures written { Writes (rule.now ++ decimal asn) line.old at line.new result }
    ensures within { at ≤ result }
    ensures end { result ≤ at + 20 }
{
    let end = write_bytes(line, at, rule);
    write_number(line, end, asn)
}

/// Writes these bytes.
#[inline(always)]
pub(crate) fn write_bytes(line: &mut [u8; ROOM], at: usize, bytes: &[u8]) -> usize
    requires { at + length bytes.now ≤ ROOM }
    ensures written { Writes bytes.now line.old at line.new result }
    ensures end { result ≡ at + length bytes.now }
{
    line[at..at + bytes.len()].copy_from_slice(bytes);
    at + bytes.len()
}
