//! The messages of a dump of BMP.
ghost use Rattle.std.specs.Prelude.{◌≡◌, ◌<◌, ◌≤◌, [], length, take, Some, IfOk};
ghost use Rattle.std.specs.FinSet as set;
ghost use Rattle.stream_lines.specs.Gives.{Gives, IsBreak, Says};
ghost use Rattle.stream_lines.specs.Units.{Bmp, MessageSays, learnt as learnt_of, message_cause as cause_of_fault, noted};

use crate::next::{Effect, Next};
use av_base::{NoMemory, PIECE};
use bmp_reader::{BmpFault, BmpFrameFault, Body, Framer, PathPeers, View, read_message};
use held_bytes::{HeldBytes, Room};
use path_model::{Peer, Role};
use report_text::Cause;
use std::alloc::Global;
use std::mem;

/// The messages that are yet to be taken off.
#[derive(Debug, Drop)]
pub(crate) struct Messages {
    // what was read of the file and belongs to no message yet
    pub(crate) framer: Framer,
    // the peers whose prefixes have path identifiers
    pub(crate) peers: PathPeers,
    // which routes of a peer are read
    pub(crate) view: View,
}

impl Messages {
    /// Nothing was read.
    pub(crate) fn new(alloc: Global, view: View) -> Messages
        ensures { result ≡ record { framer = []; peers = set.empty; view = view } }
    {
        Messages {
            framer: Framer::new(alloc),
            peers: PathPeers::new(alloc),
            view,
        }
    }

    /// Takes the first message off and reads it. None comes where no whole one is held.
    pub(crate) fn next(&mut self, alloc: Global) -> Result<Option<Next>, NoMemory>
        ensures { IfOk result (Gives (Bmp self.old.view self.old.peers) self.old.framer
            (Bmp self.new.view self.new.peers) self.new.framer) }
    {
        let reading = match self.framer.next() {
            Ok(Some(message)) => read_message(alloc, &message, self.view, &self.peers),
            Ok(None) => return Ok(None),
            Err(fault) => return Ok(Some(Next::Broken(break_cause(fault)))),
        };
        let effect = self.take(alloc, reading)?;
        Ok(Some(Next::Unit(effect)))
    }

    // What a message does that reads so.
    fn take(
        &mut self,
        alloc: Global,
        reading: Result<Body, BmpFault>,
    ) -> Result<Result<Effect, Cause>, NoMemory>
        ensures framer { self.new.framer ≡ self.old.framer }
        ensures says { IfOk result (Says (MessageSays self.old.view self.old.peers reading)
            (Bmp self.new.view self.new.peers)) }
    {
        match reading {
            Ok(Body::Routes(noted)) => Ok(Ok(Effect::Routes(noted))),
            Ok(Body::Up { peer, role, paths }) => {
                self.note(alloc, peer, paths)?;
                Ok(Ok(learnt(peer, role)))
            }
            Ok(Body::Passed) => Ok(Ok(Effect::Pass)),
            Err(fault) => {
                let cause = message_cause(fault)?;
                Ok(Err(cause))
            }
        }
    }

    // A peer came up, and its prefixes have path identifiers or not.
    fn note(&mut self, alloc: Global, peer: Peer, paths: bool) -> Result<(), NoMemory>
        ensures framer { self.new.framer ≡ self.old.framer }
        ensures view { self.new.view ≡ self.old.view }
        ensures peers { IfOk result (λ _. self.new.peers ≡ noted self.old.peers peer paths) }
    {
        let peers = mem::replace(&mut self.peers, PathPeers::new(alloc));
        self.peers = peers.note(peer, paths)?;
        Ok(())
    }

    /// Gives the buffer out, with room for a piece of the file. Nothing is held until it is back.
    pub(crate) fn lend(&mut self, alloc: Global) -> Result<Room, NoMemory>
        ensures held { IfOk result (λ room.
            take room.held room.bytes.items ≡ self.old.framer) }
        ensures room { IfOk result (λ room. room.held < length room.bytes.items) }
        ensures peers { self.new.peers ≡ self.old.peers }
        ensures view { self.new.view ≡ self.old.view }
    {
        let framer = mem::replace(&mut self.framer, Framer::new(alloc));
        framer.into_held().into_room(PIECE)
    }

    /// Takes the buffer back, of which the bytes up to `end` are held now.
    pub(crate) fn give_back(&mut self, room: Room, end: usize)
        requires { end ≤ length room.bytes.items }
        ensures { self.new ≡ record self.old { framer = take end room.bytes.items } }
    {
        self.framer = Framer::from_held(HeldBytes::from_room(room, end));
    }
}

// What is learnt of a peer that came up.
fn learnt(peer: Peer, role: Option<Role>) -> Effect
    ensures { result ≡ learnt_of peer role }
{
    match role {
        Some(role) => Effect::Learn(peer.asn, role),
        None => Effect::Note,
    }
}

// The cause for which a dump of messages breaks.
fn break_cause(fault: BmpFrameFault) -> Cause
    ensures { IsBreak fault result }
{
    match fault {
        BmpFrameFault::BmpVersion => Cause::BmpVersion,
        BmpFrameFault::BmpLength => Cause::BmpLength,
        BmpFrameFault::CutShort => Cause::CutShort,
    }
}

// The cause for which a message's body is refused; want of memory is none.
fn message_cause(fault: BmpFault) -> Result<Cause, NoMemory>
    ensures { IfOk result (λ cause. cause_of_fault fault ≡ Some cause) }
{
    match fault {
        BmpFault::Body => Ok(Cause::BmpBody),
        BmpFault::Message => Ok(Cause::Message),
        BmpFault::Attributes => Ok(Cause::Attributes),
        BmpFault::NoPath => Ok(Cause::NoPath),
        BmpFault::NoMemory => Err(NoMemory),
    }
}
