//! Prefixes as text.
ghost use Rattle.std.specs.Prelude.{◌≡◌, ◌↔◌, ℕ, ◌++◌, Some, IfSome, IfNone, IsTrue, OnOk, OnErr};
ghost use Rattle.path_model.specs.Prefix.{Subnet};
ghost use Rattle.av_text.specs.PrefixText.{prefix_text, IsPrefixText, IsNoPrefixText};
ghost use Rattle.av_text.specs.Parts.{AreParts};
ghost use Rattle.path_model.specs.declared.addr.Addr.{Addr};

use crate::address_text::{put_marked, read_addr};
use crate::marks::cut;
use crate::octets::read_octet;
use av_base::NoMemory;
use path_model::{Addr, Prefix};

/// Reads a whole text as a prefix: an address, `/` and a length in decimal, where all bits of the address behind the length are 0.
/// Takes no memory.
pub fn read_prefix(text: &[u8]) -> Option<Prefix>
    ensures spelled { IfSome result (IsPrefixText text.now) }
    ensures none { IfNone result (IsNoPrefixText text.now) }

    // What was put is read again as itself.
    ensures again { (prefix : Subnet) → IsPrefixText text.now prefix → result ≡ Some prefix }
{
    let (addr, len) = read_parts(text)?;
    let prefix = Prefix::new(addr, len)?;
    if !are_same(prefix.addr(), addr) {
        return None;
    }
    Some(prefix)
}

// Reads an address, a slash and a number below 256.
fn read_parts(text: &[u8]) -> Option<(Addr, u8)>
    ensures some { IfSome result (λ parts. AreParts text.now parts.0 parts.1) }
    ensures none { IfNone result ((addr : Addr) (len : ℕ) → ¬ AreParts text.now addr len) }
{
    let (front, back) = cut(text, b'/')?;
    let addr = read_addr(front)?;
    let len = read_octet(back)?;
    Some((addr, len as u8))
}

// Whether two addresses are the same.
fn are_same(one: Addr, other: Addr) -> bool
    ensures { IsTrue result ↔ (one ≡ other) }
{
    one == other
}

/// Appends a prefix: nine to 43 bytes.
pub fn put_prefix(out: &mut Vec<u8>, prefix: &Prefix) -> Result<(), NoMemory>
    ensures ok { OnOk result (out.new.items ≡ out.old.items ++ prefix_text prefix.now) }
    ensures err { OnErr result (out.new.items ≡ out.old.items) }
{
    put_marked(out, &prefix.addr(), b'/', u32::from(prefix.len()))
}
