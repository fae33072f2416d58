//! The body of a message.
ghost use Rattle.std.specs.Prelude.{◌≡◌};
ghost use Rattle.bmp_reader.specs.Bodies.{OrNoMemory, IsOutcome, MessageSays, is_passed as is_passed_by, RoutesSay, DownSays, OpensSay, UpSays, fault_of};
ghost use Rattle.bmp_reader.specs.Coming.{sent};
ghost use Rattle.bmp_reader.specs.Gathering.{ByParts};
ghost use Rattle.bmp_reader.specs.Left.{up_of};
ghost use Rattle.bmp_reader.specs.Readers.{header_at, down_at, up_at};

use crate::body::Body;
use crate::fault::BmpFault;
use crate::framer::Message;
use crate::header::{PeerHeader, take_down, take_header};
use crate::kind::{Kind, kind_of};
use crate::peers::PathPeers;
use crate::seen::seen_in;
use crate::up::{UpParts, up_parts};
use crate::view::View;
use bgp_update::UpdateFault;
use path_model::{Changes, Noted, Notes, Peer};
use std::alloc::Global;

/// Reads the body of a message (RFC 7854, section 4), in a view, by the peers whose prefixes have path identifiers.
///
/// A Route Monitoring says the changes of its BGP message with their notes, a Peer Down the end of all routes of its peer, and a Peer Up
/// the peer, with its role and whether both OPENs have the capability ADD-PATH. Passed over are: messages of other types; those of these
/// three whose peer type isn't 0; a Route Monitoring of the other view, or of one of `peers`, since its prefixes have path identifiers
/// (RFC 7911, section 3), which aren't read.
///
/// The refusals are tested over the whole message in this order: 47 Body, 24 Message, 23 Attributes, 25 NoPath. A message that is passed
/// over is tested for 47 alone, and not for that where its type is another one than these three. A refused message changes nothing.
/// Nothing but the changes takes memory.
pub fn read_message(
    alloc: Global,
    message: &Message<'_>,
    view: View,
    peers: &PathPeers,
) -> Result<Body, BmpFault>
    ensures { IsOutcome (sent message.now) view peers.now result }
{
    match kind_of(message.kind) {
        Kind::RouteMonitoring => read_routes(alloc, message.body, view, peers),
        Kind::PeerDown => read_down(alloc, message.body),
        Kind::PeerUp => read_up(message.body),
        Kind::Other => Ok(Body::Passed),
    }
}

// The changes of a Route Monitoring.
fn read_routes(alloc: Global, body: &[u8], view: View, peers: &PathPeers) -> Result<Body, BmpFault>
    ensures { OrNoMemory (ByParts (header_at body.now) (RoutesSay view peers.now)) result }
{
    match take_header(body) {
        Some((header, message)) => {
            if is_passed(view, peers, &header) {
                return Ok(Body::Passed);
            }
            changes_of(alloc, message, header.is_wide(), header.peer)
        }
        None => Err(BmpFault::Body),
    }
}

// Whether a Route Monitoring is passed over.
fn is_passed(view: View, peers: &PathPeers, header: &PeerHeader) -> bool
    ensures { result ≡ is_passed_by view peers.now header.now }
{
    header.is_elsewhere() || header.is_of_other(view) || peers.has(&header.peer)
}

// The changes of a BGP message. `wide` says that its ASes have four bytes.
fn changes_of(alloc: Global, message: &[u8], wide: bool, peer: Peer) -> Result<Body, BmpFault>
    ensures { OrNoMemory (MessageSays wide peer message.now) result }
{
    match bgp_update::read(alloc, message, wide, false, peer) {
        Ok(noted) => Ok(Body::Routes(noted)),
        Err(UpdateFault::Message) => Err(BmpFault::Message),
        Err(UpdateFault::Attributes) => Err(BmpFault::Attributes),
        Err(UpdateFault::NoPath) => Err(BmpFault::NoPath),
        Err(UpdateFault::NoMemory) => Err(BmpFault::NoMemory),
    }
}

// The change of a Peer Down.
fn read_down(alloc: Global, body: &[u8]) -> Result<Body, BmpFault>
    ensures { OrNoMemory (ByParts (down_at body.now) DownSays) result }
{
    match take_down(body) {
        Some(header) => {
            if header.is_elsewhere() {
                return Ok(Body::Passed);
            }
            let mut changes = Changes::new(alloc);
            changes.remove_peer(header.peer)?;
            Ok(Body::Routes(Noted {
                changes,
                notes: Notes::new(alloc),
            }))
        }
        None => Err(BmpFault::Body),
    }
}

// What a Peer Up says.
fn read_up(body: &[u8]) -> Result<Body, BmpFault>
    ensures { ByParts (up_at body.now) UpSays result }
{
    match up_parts(body) {
        Some(parts) => {
            if parts.header.is_elsewhere() {
                return Ok(Body::Passed);
            }
            Ok(up_of_parts(parts))
        }
        None => Err(BmpFault::Body),
    }
}

// What the OPENs of a Peer Up tell of its peer.
fn up_of_parts(parts: UpParts<'_>) -> Body
    ensures { OpensSay (up_of parts.entry) (Ok result) }
{
    let sent = seen_in(parts.sent);
    let received = seen_in(parts.received);
    Body::Up {
        peer: parts.header.peer,
        role: received.role(),
        paths: sent.add_path && received.add_path,
    }
}
