//! The line that says in which role a peer's AS is, and how many routes the peer has.
ghost use Rattle.std.specs.Prelude.{◌≡◌, ◌++◌, OnOk, OnErr};
ghost use Rattle.av_text.specs.Parts.{IsGrown};
ghost use Rattle.av_text.specs.RoleText.{role_text};
ghost use Rattle.report_text.specs.PeerSummaries.{address_text, owner_text, peer_summary_text, routes_part, who_part};

use crate::count::push_count;
use av_base::NoMemory;
use av_text::put_addr;
use path_model::{Addr, Role};

/// A peer that has routes, or an AS of which no peer has any: its role, and how many routes there are.
#[derive(Clone, Copy, Debug)]
pub struct PeerSummary {
    /// The peer's address, and `None` where no peer in the AS has routes.
    pub addr: Option<Addr>,
    /// The AS.
    pub asn: u32,
    /// The role of the AS.
    pub role: Role,
    /// Whether the AS has that role of its own, and not by default.
    pub own: bool,
    /// The peer's routes.
    pub routes: u64,
    /// Those whose path is valid.
    pub valid: u64,
    /// Those of whose path nothing can be told.
    pub unknown: u64,
    /// Those whose path is invalid.
    pub invalid: u64,
}

/// Appends `ADDRESS AS ROLE own routes R valid V unknown U invalid I`, whole or not at all, with `-` for no address and with `default` in
/// place of `own`. A line has 48 to 182 bytes with its line feed, and what it takes is that room in `out` alone.
pub fn put_peer_summary(out: &mut Vec<u8>, peer: PeerSummary) -> Result<(), NoMemory>
    ensures ok { OnOk result (out.new.items ≡ out.old.items ++ peer_summary_text peer) }
    ensures err { OnErr result (out.new.items ≡ out.old.items) }
{
    let start = out.len();
    let done = push_peer_summary(out, peer);
    if done.is_err() {
        out.truncate(start);
    }
    done
}

// Appends the line, or a front of it where that fails.
fn push_peer_summary(out: &mut Vec<u8>, peer: PeerSummary) -> Result<(), NoMemory>
    ensures ok { OnOk result (out.new.items ≡ out.old.items ++ peer_summary_text peer) }
    ensures grown { IsGrown out.old.items out.new.items }
{
    push_who(out, peer)?;
    push_routes(out, peer)?;
    out.push(b'\n')?;
    Ok(())
}

// Appends who it is and in which role, or a front of that where it fails.
fn push_who(out: &mut Vec<u8>, peer: PeerSummary) -> Result<(), NoMemory>
    ensures ok { OnOk result (out.new.items ≡ out.old.items ++ who_part peer) }
    ensures grown { IsGrown out.old.items out.new.items }
{
    push_address(out, peer.addr)?;
    push_count(out, b" ", u64::from(peer.asn))?;
    out.push(b' ')?;
    out.extend_from_slice(word_of(peer.role))?;
    out.extend_from_slice(owner_of(peer.own))?;
    Ok(())
}

// Appends the address, or what stands for none.
fn push_address(out: &mut Vec<u8>, addr: Option<Addr>) -> Result<(), NoMemory>
    ensures ok { OnOk result (out.new.items ≡ out.old.items ++ address_text addr) }
    ensures grown { IsGrown out.old.items out.new.items }
{
    match addr {
        None => Ok(out.extend_from_slice(b"-")?),
        Some(addr) => put_addr(out, &addr),
    }
}

// The word for a role.
fn word_of(role: Role) -> &'static [u8]
    ensures { result.now ≡ role_text role }
{
    match role {
        Role::Provider => b"provider",
        Role::Customer => b"customer",
        Role::Peer => b"peer",
        Role::Rs => b"rs",
        Role::RsClient => b"rs-client",
        Role::Mutual => b"mutual",
    }
}

// The word for whose the role is, after a blank.
fn owner_of(own: bool) -> &'static [u8]
    ensures { result.now ≡ owner_text own }
{
    if own { b" own" } else { b" default" }
}

// Appends how many routes there are, or a front of that where it fails.
fn push_routes(out: &mut Vec<u8>, peer: PeerSummary) -> Result<(), NoMemory>
    ensures ok { OnOk result (out.new.items ≡ out.old.items ++ routes_part peer) }
    ensures grown { IsGrown out.old.items out.new.items }
{
    push_count(out, b" routes ", peer.routes)?;
    push_count(out, b" valid ", peer.valid)?;
    push_count(out, b" unknown ", peer.unknown)?;
    push_count(out, b" invalid ", peer.invalid)
}
