//! Hosts with a port, as text.
ghost use Rattle.std.specs.Prelude.{◌≡◌, ◌≢◌, ◌↔◌, ◌⊎◌, ℕ, List, [], ◌∷◌, ◌++◌, slice_index, decimal, IsTrue, IfSome, IfNone};
ghost use Rattle.std.specs.Char.{is_ascii_alphabetic};
ghost use Rattle.av_text.specs.HostPort.{IsDotted, IsFour, IsHost, IsHostName, IsHostPort, IsLabel, IsNoHostPort, IsPort, IsSix, is_label_byte as may_stand};

use crate::address_text::read_addr;
use crate::marks::{cut, cut_last};
use crate::number::read_u32;
use path_model::Addr;
use std::net::Ipv6Addr;

// The most bytes of a name.
const MOST_HOST_BYTES: usize = 253;

/// A host, as it is written, and a port from 1 to 65,535.
#[derive(Clone, Copy, Debug)]
pub struct HostPort<'a> {
    pub host: &'a [u8],
    pub port: u16,
}

/// Reads a whole text as a host and a port with a colon between them: the host is a name, an IPv4 address, or an IPv6 address in
/// brackets. Takes no memory, and asks nobody whether there is such a host.
pub fn read_host_port(text: &[u8]) -> Option<HostPort<'_>>
    ensures spelled { IfSome result (λ found. IsHostPort text.now found.host.now found.port) }
    ensures none { IfNone result (IsNoHostPort text.now) }
{
    let (host, port) = cut_last(text, b':')?;
    let port = read_port(port)?;
    if !is_host(host) {
        return None;
    }
    Some(HostPort { host, port })
}

// Reads a port.
fn read_port(text: &[u8]) -> Option<u16>
    ensures some { IfSome result (λ port. IsPort port × (text.now ≡ decimal port)) }
    ensures none { IfNone result ((port : ℕ) → IsPort port → text.now ≢ decimal port) }
{
    let number = read_u32(text)?;
    if number == 0 || number > 65535 {
        return None;
    }
    Some(number as u16)
}

fn is_host(text: &[u8]) -> bool
    ensures { IsTrue result ↔ IsHost text.now }
{
    is_name(text) || is_four(text) || is_bracketed(text)
}

// Whether a text is an IPv6 address in brackets.
fn is_bracketed(text: &[u8]) -> bool
    ensures { IsTrue result
        ↔ ((inner : List ℕ) × (text.now ≡ 91 ∷ inner ++ 93 ∷ []) × IsSix inner) }
{
    match text {
        [b'[', inner @ .., b']'] => is_six(inner),
        _ => false,
    }
}

fn is_six(text: &[u8]) -> bool
    ensures { IsTrue result ↔ IsSix text.now }
{
    Ipv6Addr::parse_ascii(text).is_ok()
}

fn is_four(text: &[u8]) -> bool
    ensures { IsTrue result ↔ IsFour text.now }
{
    match read_addr(text) {
        Some(Addr::V4(_)) => true,
        Some(Addr::V6(_)) => false,
        None => false,
    }
}

fn is_name(text: &[u8]) -> bool
    ensures { IsTrue result ↔ IsHostName text.now }
{
    text.len() <= MOST_HOST_BYTES && is_dotted(text)
}

// Whether a text is labels with dots between them, the last of which begins with a letter.
fn is_dotted(text: &[u8]) -> bool
    ensures { IsTrue result ↔ IsDotted text.now }
{
    match cut(text, b'.') {
        None => is_label(text) && begins_with_letter(text),
        Some((label, rest)) => is_label(label) && is_dotted(rest),
    }
}

fn is_label(text: &[u8]) -> bool
    ensures { IsTrue result ↔ IsLabel text.now }
{
    !text.is_empty() && text.iter().all(|byte| is_label_byte(*byte))
}

fn is_label_byte(byte: u8) -> bool
    ensures { result ≡ may_stand byte }
{
    matches!(byte, b'a'..=b'z' | b'A'..=b'Z' | b'0'..=b'9' | b'-' | b'_')
}

fn begins_with_letter(text: &[u8]) -> bool
    requires { text.now ≢ [] }
    ensures { result ≡ is_ascii_alphabetic (slice_index text.now 0) }
{
    matches!(text[0], b'a'..=b'z' | b'A'..=b'Z')
}
