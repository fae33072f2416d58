//! Rows, origins, leaks, changes and details one after another, each written behind the text of its peer.
ghost use Rattle.std.specs.Prelude.{◌≡◌, ◌≢◌, ◌++◌, ◌∷◌, ◌+◌, ◌≤◌, [], None, Some, IsTrue, take, OnOk, OnErr};
ghost use Rattle.path_model.specs.declared.leak.Leak.TheVariants.{Clean};
ghost use Rattle.av_text.specs.PeerText.{peer_text};
ghost use Rattle.report_text.specs.Change.{change_text};
ghost use Rattle.report_text.specs.Details.{detail_text};
ghost use Rattle.report_text.specs.Fronts.{change_rest, leak_rest, nlri_text, origin_rest, row_rest, unended_rest};
ghost use Rattle.report_text.specs.Leaks.{leak_text};
ghost use Rattle.report_text.specs.Origins.{origin_text};
ghost use Rattle.report_text.specs.Rows.{row_text};
ghost use Rattle.report_text.specs.Writes.{Writes};
ghost use Rattle.path_model.specs.declared.peer.Peer.{Peer as AnyPeer};
ghost use Rattle.path_model.specs.Key.{key_of};

use crate::detail::put_behind;
use crate::digits::write_number;
use crate::line::{
    ROOM, write_addr, write_behind, write_bytes, write_identifier, write_mark, write_prefix,
    write_shown, write_verdict,
};
use crate::origin::word_of;
use av_base::NoMemory;
use origin_model::OriginState;
use path_model::{Key, Leak, Nlri, Peer, Trail, Verdict, Witness};
use std::marker::Model;

/// Writes lines one after another, and the text of a peer once for all of its lines that follow one another.
#[derive(Debug, Drop)]
pub struct PeerLines {
    // the peer's text with a space behind it, and then the rest of the line that was put last
    line: [u8; ROOM],
    // how long the peer's text is, with its space
    front: usize,
    // whose text it is
    peer: Option<Peer>,
}

/// A contract sees whose text is held.
impl Model for PeerLines {
    ghost use Rattle.std.specs.declared.option.Option.{Option};
    ghost use Rattle.path_model.specs.declared.peer.Peer.{Peer};
    ghost use Rattle.report_text.specs.Fronts.{IsFront};

    ghost Value = { Option Peer };

    ghost view = { λ l. l.peer };

    ghost invariant = { λ l. IsFront l.peer l.front l.line };
}

impl PeerLines {
    /// No peer's text is held. It takes no memory.
    pub fn new() -> PeerLines
        ensures { result ≡ None }
    {
        PeerLines {
            line: [0u8; ROOM],
            front: 0,
            peer: None,
        }
    }

    /// Appends the row that [`put_row`](crate::put_row) appends, or nothing. What it takes is that room in `out` alone.
    pub fn put_row(
        &mut self,
        out: &mut Vec<u8>,
        key: &Key,
        verdict: Verdict,
    ) -> Result<(), NoMemory>
        ensures ok { OnOk result (out.new.items ≡ out.old.items ++ row_text key.now verdict) }
        ensures err { OnErr result (out.new.items ≡ out.old.items) }
    {
        self.turn_to(&key.peer);
        let end = write_row(&mut self.line, self.front, key, verdict);
        out.extend_from_slice(&self.line[..end])?;
        Ok(())
    }

    /// Appends the row that [`put_row`](crate::put_row) appends for what the peer announced whose text is held, or nothing. What it takes is
    /// that room in `out` alone.
    #[inline(always)]
    pub fn put_row_of(
        &mut self,
        out: &mut Vec<u8>,
        nlri: Nlri,
        verdict: Verdict,
    ) -> Result<(), NoMemory>
        ensures ok { (peer : AnyPeer) → self.old ≡ Some peer → OnOk result
            (out.new.items ≡ out.old.items ++ row_text (key_of peer nlri) verdict) }
        ensures err { OnErr result (out.new.items ≡ out.old.items) }
        ensures same { self.new ≡ self.old }
    {
        let Some(peer) = self.peer else {
            return Ok(());
        };
        let key = Key::new(peer, nlri);
        let end = write_row(&mut self.line, self.front, &key, verdict);
        out.extend_from_slice(&self.line[..end])?;
        Ok(())
    }

    /// Appends the line that [`put_origin`](crate::put_origin) appends, or nothing. What it takes is that room in `out` alone.
    pub fn put_origin(
        &mut self,
        out: &mut Vec<u8>,
        key: &Key,
        state: OriginState,
    ) -> Result<(), NoMemory>
        ensures ok { OnOk result (out.new.items ≡ out.old.items ++ origin_text key.now state) }
        ensures err { OnErr result (out.new.items ≡ out.old.items) }
    {
        self.turn_to(&key.peer);
        let end = write_origin(&mut self.line, self.front, key, state);
        out.extend_from_slice(&self.line[..end])?;
        Ok(())
    }

    /// Appends the line that [`put_leak`](crate::put_leak) appends, or nothing. What it takes is that room in `out` alone.
    pub fn put_leak(&mut self, out: &mut Vec<u8>, key: &Key, leak: Leak) -> Result<(), NoMemory>
        requires { leak ≢ Clean }
        ensures ok { OnOk result (out.new.items ≡ out.old.items ++ leak_text key.now leak) }
        ensures err { OnErr result (out.new.items ≡ out.old.items) }
    {
        self.turn_to(&key.peer);
        let end = write_leak(&mut self.line, self.front, key, leak);
        out.extend_from_slice(&self.line[..end])?;
        Ok(())
    }

    /// Appends the line that [`put_change`](crate::put_change) appends, or nothing. What it takes is that room in `out` alone.
    pub fn put_change(
        &mut self,
        out: &mut Vec<u8>,
        key: &Key,
        before: Option<Verdict>,
        after: Option<Verdict>,
    ) -> Result<(), NoMemory>
        ensures ok { OnOk result
            (out.new.items ≡ out.old.items ++ change_text key.now before after) }
        ensures err { OnErr result (out.new.items ≡ out.old.items) }
    {
        self.turn_to(&key.peer);
        let end = write_change(&mut self.line, self.front, key, before, after);
        out.extend_from_slice(&self.line[..end])?;
        Ok(())
    }

    /// Appends the line that [`put_detail`](crate::put_detail) appends, or nothing. What it takes is that room in `out` alone.
    pub fn put_detail(
        &mut self,
        out: &mut Vec<u8>,
        key: &Key,
        verdict: Verdict,
        witness: Witness,
        trail: &Trail,
    ) -> Result<(), NoMemory>
        ensures ok { OnOk result
            (out.new.items ≡ out.old.items ++ detail_text key.now verdict witness trail.now) }
        ensures err { OnErr result (out.new.items ≡ out.old.items) }
    {
        self.turn_to(&key.peer);
        let end = write_unended(&mut self.line, self.front, key, verdict);
        put_behind(out, &self.line[..end], witness, trail)
    }

    /// The text of this peer is held. It takes no memory.
    pub fn turn_to(&mut self, peer: &Peer)
        ensures { self.new ≡ Some peer.now }
    {
        if !is_of(self.peer, peer) {
            self.front = write_front(&mut self.line, peer);
            self.peer = Some(*peer);
        }
    }
}

// Whether what is held is of this peer.
fn is_of(held: Option<Peer>, peer: &Peer) -> bool
    ensures { IsTrue result → held ≡ Some peer.now }
{
    match held {
        Some(held) => are_same(&held, peer),
        None => false,
    }
}

// Whether two peers are the same.
#[tactic(auto, using(crate::proofs::FrontLemmas::same_peer))]
fn are_same(one: &Peer, other: &Peer) -> bool
    ensures { IsTrue result → one.now ≡ other.now }
{
    one == other
}

// Writes `ADDRESS AS ` in the front of the line, and answers where it ends.
#[inline(never)]
fn write_front(line: &mut [u8; ROOM], peer: &Peer) -> usize
    ensures written { take result line.new ≡ peer_text peer.now ++ 32 ∷ [] }
    ensures end { result ≤ 51 }
{
    let end = write_addr(line, 0, peer.addr);
    let end = write_behind(line, end, b' ');
    let end = write_number(line, end, peer.asn);
    write_behind(line, end, b' ')
}

// Writes the rest of a row behind the text of its peer, and answers where it ends.
#[inline(always)]
fn write_row(line: &mut [u8; ROOM], front: usize, key: &Key, verdict: Verdict) -> usize
    requires { front ≤ 51 }
    ensures written { Writes (row_rest key.now verdict) line.old front line.new result }
    ensures within { front ≤ result }
    ensures end { result ≤ ROOM }
{
    let end = write_nlri(line, front, key);
    let end = write_verdict(line, end, verdict);
    write_behind(line, end, b'\n')
}

// Writes the rest of a row without its line feed behind the text of its peer, and answers where it ends.
#[inline(always)]
fn write_unended(line: &mut [u8; ROOM], front: usize, key: &Key, verdict: Verdict) -> usize
    requires { front ≤ 51 }
    ensures written { Writes (unended_rest key.now verdict) line.old front line.new result }
    ensures within { front ≤ result }
    ensures end { result ≤ ROOM }
{
    let end = write_nlri(line, front, key);
    write_verdict(line, end, verdict)
}

// Writes the rest of an origin's line behind the text of its peer, and answers where it ends.
#[inline(always)]
fn write_origin(line: &mut [u8; ROOM], front: usize, key: &Key, state: OriginState) -> usize
    requires { front ≤ 51 }
    ensures written { Writes (origin_rest key.now state) line.old front line.new result }
    ensures within { front ≤ result }
    ensures end { result ≤ ROOM }
{
    let end = write_nlri(line, front, key);
    let end = write_bytes(line, end, word_of(state));
    write_behind(line, end, b'\n')
}

// Writes the rest of a leak's line behind the text of its peer, and answers where it ends.
#[inline(always)]
fn write_leak(line: &mut [u8; ROOM], front: usize, key: &Key, leak: Leak) -> usize
    requires { front ≤ 51 }
    ensures written { Writes (leak_rest key.now leak) line.old front line.new result }
    ensures within { front ≤ result }
    ensures end { result ≤ ROOM }
{
    let end = write_nlri(line, front, key);
    let end = write_shown(line, end, leak);
    write_behind(line, end, b'\n')
}

// Writes the rest of a change behind the text of its peer, and answers where it ends.
#[inline(always)]
fn write_change(
    line: &mut [u8; ROOM],
    front: usize,
    key: &Key,
    before: Option<Verdict>,
    after: Option<Verdict>,
) -> usize
    requires { front ≤ 51 }
    ensures written { Writes (change_rest key.now before after) line.old front line.new result }
    ensures within { front ≤ result }
    ensures end { result ≤ ROOM }
{
    let end = write_nlri(line, front, key);
    let end = write_mark(line, end, before);
    let end = write_behind(line, end, b' ');
    let end = write_mark(line, end, after);
    write_behind(line, end, b'\n')
}

// Writes what the peer announced, with a space behind it.
#[inline(always)]
fn write_nlri(line: &mut [u8; ROOM], front: usize, key: &Key) -> usize
    requires { front ≤ 51 }
    ensures written { Writes (nlri_text key.now) line.old front line.new result }
    ensures within { front ≤ result }
    ensures end { result ≤ front + 60 }
{
    let end = write_prefix(line, front, &key.prefix);
    let end = write_identifier(line, end, key.path);
    write_behind(line, end, b' ')
}
