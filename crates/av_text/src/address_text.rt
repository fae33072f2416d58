//! Addresses as text.
ghost use Rattle.std.specs.Prelude.{◌≡◌, ◌++◌, Some, IfSome, IfNone, OnOk, OnErr};
ghost use Rattle.path_model.specs.declared.addr.Addr.{Addr};
ghost use Rattle.av_text.specs.AddressText.{addr_text, IsAddrText, IsNoAddrText};
ghost use Rattle.av_text.specs.Parts.{marked_text, IsGrown};

use crate::groups::{put_groups, read_groups};
use crate::marks::or_undo;
use crate::number::put_u64;
use crate::octets::{put_octets, read_octets};
use av_base::NoMemory;
use path_model::Addr;

/// Reads a whole text as an address: four decimal numbers up to 255 without leading zeros and with dots between them, or eight
/// groups of four lower-case hexadecimal digits with colons between them. Takes no memory.
pub fn read_addr(text: &[u8]) -> Option<Addr>
    ensures spelled { IfSome result (IsAddrText text.now) }
    ensures none { IfNone result (IsNoAddrText text.now) }

    // What was put is read again as itself.
    ensures again { (addr : Addr) → IsAddrText text.now addr → result ≡ Some addr }
{
    match read_octets(text, 3) {
        Some(number) => Some(Addr::V4(number)),
        None => Some(Addr::V6(read_groups(text, 7)?)),
    }
}

/// Appends an address: seven to 39 bytes.
pub fn put_addr(out: &mut Vec<u8>, addr: &Addr) -> Result<(), NoMemory>
    ensures ok { OnOk result (out.new.items ≡ out.old.items ++ addr_text addr.now) }
    ensures err { OnErr result (out.new.items ≡ out.old.items) }
{
    let start = out.len();
    let done = push_addr(out, *addr);
    or_undo(out, start, done)
}

// Appends an address, or a front of it where that fails.
fn push_addr(out: &mut Vec<u8>, addr: Addr) -> Result<(), NoMemory>
    ensures ok { OnOk result (out.new.items ≡ out.old.items ++ addr_text addr) }
    ensures grown { IsGrown out.old.items out.new.items }
{
    match addr {
        Addr::V4(number) => put_octets(out, number, 3),
        Addr::V6(number) => put_groups(out, number, 7),
    }
}

/// Appends an address, a mark and a number, or nothing.
pub(crate) fn put_marked(
    out: &mut Vec<u8>,
    addr: &Addr,
    mark: u8,
    number: u32,
) -> Result<(), NoMemory>
    ensures ok { OnOk result (out.new.items ≡ out.old.items ++ marked_text addr.now mark number) }
    ensures err { OnErr result (out.new.items ≡ out.old.items) }
{
    let start = out.len();
    let done = push_marked(out, addr, mark, number);
    or_undo(out, start, done)
}

// Appends an address, a mark and a number, or a front of that where it fails.
fn push_marked(out: &mut Vec<u8>, addr: &Addr, mark: u8, number: u32) -> Result<(), NoMemory>
    ensures ok { OnOk result (out.new.items ≡ out.old.items ++ marked_text addr.now mark number) }
    ensures grown { IsGrown out.old.items out.new.items }
{
    put_addr(out, addr)?;
    out.push(mark)?;
    put_u64(out, u64::from(number))
}
