//! Bodies of peer tables.
ghost use Rattle.std.specs.Prelude.{◌≡◌, option_map, OnOk, ◌++◌, ◌∷◌, []};
ghost use Rattle.bgp_attrs.specs.Joined.{items_of};
ghost use Rattle.mrt_reader.specs.Bodies.{OrNoMemory, TableSays};
ghost use Rattle.mrt_reader.specs.Gathering.{ByParts, Gives};
ghost use Rattle.mrt_reader.specs.Readers.{peer_at, counted_part, table_at};

use crate::body::Body;
use crate::fault::BodyFault;
use crate::peers::PeerTable;
use av_base::NoMemory;
use bgp_attrs::{take, take_addr, take_asn, take_block, take_two};
use path_model::Peer;
use std::alloc::Global;

// The peers of a whole body.
#[tactic(auto, unfolding(crate::specs::Readers::table_at))]
pub(crate) fn read_table(alloc: Global, body: &[u8]) -> Result<Body, BodyFault>
    ensures { OrNoMemory (ByParts (table_at body.now) TableSays) result }
{
    match counted_bytes(body) {
        Some((count, rest)) => {
            let peers = peers_of(alloc, rest)?;
            if peers.len() != count {
                return Err(BodyFault::Body);
            }
            Ok(Body::Peers(PeerTable::from_vec(peers)))
        }
        None => Err(BodyFault::Body),
    }
}

// The count of the peers, and the bytes behind it.
fn counted_bytes(body: &[u8]) -> Option<(usize, &[u8])>
    ensures { option_map (λ x. (x.0, x.1.now)) result ≡ counted_part body.now }
{
    let (_, rest) = take(body, 4)?;
    let (_, rest) = take_block(rest)?;
    let (count, rest) = take_two(rest)?;
    Some((usize::from(count), rest))
}

// The peers that the bytes spell.
fn peers_of(alloc: Global, bytes: &[u8]) -> Result<Vec<Peer>, BodyFault>
    ensures { Gives (λ v. v.items) result (items_of peer_at bytes.now) }
{
    let mut peers = Vec::new(alloc);
    let mut rest = bytes;
    while !rest.is_empty() {
        match take_peer(rest) {
            Some((peer, more)) => {
                put_peer(&mut peers, peer)?;
                rest = more;
            }
            None => return Err(BodyFault::Body),
        }
    }
    Ok(peers)
}

fn put_peer(peers: &mut Vec<Peer>, peer: Peer) -> Result<(), NoMemory>
    ensures { OnOk result (peers.new.items ≡ peers.old.items ++ peer ∷ []) }
{
    peers.push(peer)?;
    Ok(())
}

#[tactic(auto, unfolding(crate::specs::Readers::peer_at))]
fn take_peer(bytes: &[u8]) -> Option<(Peer, &[u8])>
    ensures { option_map (λ x. (x.0, x.1.now)) result ≡ peer_at bytes.now }
{
    match bytes {
        [kind, rest @ ..] => {
            let (_, rest) = take(rest, 4)?;
            let (addr, rest) = take_addr(rest, *kind & 0x01 != 0)?;
            let (asn, rest) = take_asn(rest, *kind & 0x02 != 0)?;
            Some((Peer { addr, asn }, rest))
        }
        [] => None,
    }
}
