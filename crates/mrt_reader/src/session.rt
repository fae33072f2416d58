//! Bodies of recorded messages and state changes.
ghost use Rattle.std.specs.Prelude.{◌≡◌, option_map};
ghost use Rattle.mrt_reader.specs.Bodies.{OrNoMemory, MessageSays, StateSays, fault_of};
ghost use Rattle.mrt_reader.specs.Gathering.{ByParts};
ghost use Rattle.mrt_reader.specs.Readers.{six_of, behind_time, session_at, message_at, state_at};

use crate::body::Body;
use crate::fault::BodyFault;
use crate::routing::no_changes;
use bgp_attrs::{take, take_addr, take_asn, take_two};
use bgp_update::UpdateFault;
use path_model::Peer;
use std::alloc::Global;

const ESTABLISHED: u16 = 6;

// The changes of a recorded message. `add_path` says that its prefixes have path identifiers.
pub(crate) fn read_message(
    alloc: Global,
    body: &[u8],
    timed: bool,
    wide: bool,
    add_path: bool,
) -> Result<Body, BodyFault>
    ensures { OrNoMemory (ByParts (message_at timed wide body.now) (MessageSays wide add_path)) result }
{
    match take_message(body, timed, wide) {
        Some((peer, message)) => changes_of(alloc, message, wide, add_path, peer),
        None => Err(BodyFault::Body),
    }
}

fn changes_of(
    alloc: Global,
    message: &[u8],
    wide: bool,
    add_path: bool,
    peer: Peer,
) -> Result<Body, BodyFault>
    ensures { OrNoMemory (MessageSays wide add_path (peer, message.now)) result }
{
    match bgp_update::read(alloc, message, wide, add_path, peer) {
        Ok(noted) => Ok(Body::Routes(noted)),
        Err(UpdateFault::Message) => Err(BodyFault::Message),
        Err(UpdateFault::Attributes) => Err(BodyFault::Attributes),
        Err(UpdateFault::NoPath) => Err(BodyFault::NoPath),
        Err(UpdateFault::NoMemory) => Err(BodyFault::NoMemory),
    }
}

// The change of a state change.
pub(crate) fn read_state(
    alloc: Global,
    body: &[u8],
    timed: bool,
    wide: bool,
) -> Result<Body, BodyFault>
    ensures { OrNoMemory (ByParts (state_at timed wide body.now) StateSays) result }
{
    match take_state(body, timed, wide) {
        Some((peer, state)) => change_at(alloc, peer, state),
        None => Err(BodyFault::Body),
    }
}

// Where the session isn't up, all routes of the peer are gone.
fn change_at(alloc: Global, peer: Peer, state: u16) -> Result<Body, BodyFault>
    ensures { OrNoMemory (StateSays (peer, state)) result }
{
    let mut noted = no_changes(alloc);
    if state != ESTABLISHED {
        noted.changes.remove_peer(peer)?;
    }
    Ok(Body::Routes(noted))
}

// The peer and the new state.
#[tactic(auto, unfolding(crate::specs::Readers::state_at))]
fn take_state(body: &[u8], timed: bool, wide: bool) -> Option<(Peer, u16)>
    ensures { result ≡ state_at timed wide body.now }
{
    let (peer, rest) = take_message(body, timed, wide)?;
    let (_, rest) = take_two(rest)?;
    let (state, rest) = take_two(rest)?;
    if !rest.is_empty() {
        return None;
    }
    Some((peer, state))
}

// The peer and the bytes behind the fields of the session.
#[tactic(auto, unfolding(crate::specs::Readers::message_at))]
fn take_message(body: &[u8], timed: bool, wide: bool) -> Option<(Peer, &[u8])>
    ensures { option_map (λ x. (x.0, x.1.now)) result ≡ message_at timed wide body.now }
{
    take_session(fields_of(body, timed)?, wide)
}

// The bytes behind the microseconds, if there are some.
fn fields_of(body: &[u8], timed: bool) -> Option<&[u8]>
    ensures { option_map (λ x. x.now) result ≡ behind_time timed body.now }
{
    if timed {
        let (_, rest) = take(body, 4)?;
        Some(rest)
    } else {
        Some(body)
    }
}

#[tactic(auto, unfolding(crate::specs::Readers::session_at))]
fn take_session(bytes: &[u8], wide: bool) -> Option<(Peer, &[u8])>
    ensures { option_map (λ x. (x.0, x.1.now)) result ≡ session_at wide bytes.now }
{
    let (asn, rest) = take_asn(bytes, wide)?;
    let (_, rest) = take_asn(rest, wide)?;
    let (_, rest) = take_two(rest)?;
    let (afi, rest) = take_two(rest)?;
    let six = is_six(afi)?;
    let (addr, rest) = take_addr(rest, six)?;
    let (_, rest) = take_addr(rest, six)?;
    Some((Peer { addr, asn }, rest))
}

// Whether an address family is IPv6.
fn is_six(afi: u16) -> Option<bool>
    ensures { result ≡ six_of afi }
{
    match afi {
        2 => Some(true),
        1 => Some(false),
        _ => None,
    }
}
