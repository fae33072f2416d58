//! Prefixes in any text form.
ghost use Rattle.std.specs.Prelude.{◌≡◌, ◌↔◌, ℕ, ◌<◌, decimal, Some, IfSome, IfNone, IsTrue};
ghost use Rattle.path_model.specs.declared.addr.Addr.{Addr};
ghost use Rattle.path_model.specs.Prefix.{Subnet};
ghost use Rattle.any_prefix.specs.AnyPrefix.{IsAnyPrefixText};
ghost use Rattle.any_prefix.specs.Reading.{AreAnyParts};

use crate::address::read_any_addr;
use av_text::{cut, read_u32};
use path_model::{Addr, Prefix};

/// Reads a whole text as a prefix: an address, `/` and a length in decimal without leading zeros, at most 32 or 128, where all bits of the
/// address behind the length are 0. Takes no memory.
///
/// An IPv4 address is four decimal numbers with dots. An IPv6 address has any text form of RFC 4291, section 2.2: eight groups of one to four
/// hexadecimal digits of either case with colons between them, `::` at most once for one or more groups of zeros, and the last two groups
/// maybe written as an IPv4 address. So `2001:db8::/32` and `::ffff:192.0.2.0/120` are read, and `2001:db8::1/32` isn't.
pub fn read_any_prefix(text: &[u8]) -> Option<Prefix>
    ensures some { IfSome result (IsAnyPrefixText text.now) }
    ensures none { IfNone result ((prefix : Subnet) → ¬ IsAnyPrefixText text.now prefix) }

    // A text is the text of one prefix alone.
    ensures one { (prefix : Subnet) → IsAnyPrefixText text.now prefix → result ≡ Some prefix }
{
    let (addr, len) = read_parts(text)?;
    let prefix = Prefix::new(addr, len)?;
    if !are_same(prefix.addr(), addr) {
        return None;
    }
    Some(prefix)
}

// Reads an address, a slash and a number below 256.
fn read_parts(text: &[u8]) -> Option<(Addr, u8)>
    ensures some { IfSome result (λ parts. AreAnyParts text.now parts.0 parts.1) }
    ensures none { IfNone result ((addr : Addr) (len : ℕ) → ¬ AreAnyParts text.now addr len) }
{
    let (front, back) = cut(text, b'/')?;
    let addr = read_any_addr(front)?;
    let len = read_u32(back)?;
    if len > 255 {
        return None;
    }
    Some((addr, len as u8))
}

// Whether two addresses are the same.
fn are_same(one: Addr, other: Addr) -> bool
    ensures { IsTrue result ↔ (one ≡ other) }
{
    one == other
}
