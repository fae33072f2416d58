//! What the peers announce.
ghost use Rattle.std.specs.Prelude.{◌≡◌, ◌<◌, IfOk, OnOk};
ghost use Rattle.stated_workload.specs.Draws.{Adds};
ghost use Rattle.stated_workload.specs.Workload.{DrawsAnnouncement, key_of};

use crate::draws::{draw, draw_ases};
use analyser::Event;
use av_base::NoMemory;
use path_model::{Addr, AsList, Changes, Key, Peer, Prefix, Trail};
use rand_pcg::Lcg64Xsh32;
use std::alloc::Global;

const PREFIXES: u32 = 20_000;

/// Adds an announcement of each prefix.
#[tactic(auto, using(crate::proofs::DrawsLemmas::draw_steps))]
pub(crate) fn add_announcements(
    alloc: Global,
    rng: &mut Lcg64Xsh32,
    events: &mut Vec<Event>,
) -> Result<(), NoMemory>
    ensures { OnOk result
        (Adds DrawsAnnouncement 20000 rng.old events.old.items events.new.items rng.new) }
{
    for p in 0..PREFIXES {
        events.push(draw_announcement(alloc, rng, p)?)?;
    }
    Ok(())
}

// The announcement of the prefix of this number.
fn draw_announcement(alloc: Global, rng: &mut Lcg64Xsh32, p: u32) -> Result<Event, NoMemory>
    requires { p < 20000 }
    ensures { IfOk result (λ event. DrawsAnnouncement p rng.old event rng.new) }
{
    let q = draw(rng, 20);
    let count = draw(rng, 6);
    let mut path = AsList::new(alloc);
    path.push(1 + q)?;
    draw_ases(rng, count, &mut path)?;
    let trail = Trail::new(alloc, false, path.as_slice())?;
    let mut changes = Changes::new(alloc);
    changes.announce(key_of(q, p), trail)?;
    Ok(Event::Routes(changes))
}

// The key of a peer and a prefix, by their numbers, without a path identifier.
fn key_of(q: u32, p: u32) -> Key
    requires peer { q < 20 }
    requires prefix { p < 20000 }
    ensures { result ≡ key_of q p }
{
    Key {
        peer: Peer {
            addr: Addr::V4(0x0A00_0000 + 1 + q),
            asn: 1 + q,
        },
        prefix: Prefix::new(Addr::V4(0x0B00_0000 + 256 * p), 24).unwrap(),
        path: None,
    }
}
