//! Half a million events that each change one verdict, each listed and marked, beside 200,000 routes of the same AS whose verdicts stay.
ghost use Rattle.std.specs.Prelude.{◌≡◌};

use crate::quiet::routes;
use crate::replaying::{assert_one, gather, happen, mark, unassert};
use analyser::{Analyser, Event};
use av_base::{NoMemory, Steps};
use path_model::{Addr, Changes, Key, Peer, Prefix, Role, Trail};
use rib_store::RibStore;
use std::alloc::Global;
use std::marker::Brand;
use std::sync::ledger::{Blank, Ledger};

// 10.0.0.2 in AS 1, as the peer of the other routes.
const OTHER_PEER: Peer = Peer {
    addr: Addr::V4(0x0A00_0002),
    asn: 1,
};

// The only route of that peer, to 11.0.0.0/24 from 300,000.
fn other_route(alloc: Global) -> Result<Event, NoMemory> {
    let mut changes = Changes::new(alloc);
    if let Some(prefix) = Prefix::new(Addr::V4(0x0B00_0000), 24) {
        let key = Key {
            peer: OTHER_PEER,
            prefix,
            path: None,
        };
        changes.announce(key, Trail::new(alloc, false, &[1, 300_000])?)?;
    }
    Ok(Event::Routes(changes))
}

// How many keys differ from what was marked of them.
fn changed(store: &RibStore) -> u32 {
    let mut keys = 0u32;
    for _ in store.changes() {
        keys = keys.saturating_add(1);
    }
    keys
}

// The changes are gathered, counted and marked.
fn counted(analyser: Analyser, count: &mut u32) -> Result<Analyser, NoMemory> {
    let analyser = gather(analyser)?;
    *count = count.saturating_add(changed(analyser.store()));
    Ok(mark(analyser))
}

// From providers, with all routes, marked; then from customers.
fn loaded<L: Ledger>(alloc: Global, steps: &mut Steps<L>) -> Result<Analyser, NoMemory> {
    let analyser = mark(Analyser::new(alloc)?);
    let analyser = happen(analyser, Event::DefaultRole(Role::Provider), steps)?;
    let analyser = happen(analyser, routes(alloc)?, steps)?;
    let analyser = mark(happen(analyser, other_route(alloc)?, steps)?);
    happen(analyser, Event::DefaultRole(Role::Customer), steps)
}

// How many changes are seen in all after 250,000 assertions, and after each was taken back; each time they are marked. All routes change
// first, by another role, and are marked so.
fn replayed<L: Ledger>(alloc: Global, blank: Blank) -> Result<(u32, u32, u32), NoMemory>
    requires name { blank.name ≡ L.name }
    requires parts { blank.parts ≡ L.parts }
    requires one { L.parts ≡ 1 }
{
    let mut steps = Steps::<L>::new(blank);
    let mut first = 0u32;
    let mut there = 0u32;
    let mut gone = 0u32;
    let mut analyser = counted(loaded(alloc, &mut steps)?, &mut first)?;
    for _ in 0..250_000u32 {
        analyser = assert_one(alloc, analyser, 300_000, 1, &mut steps)?;
        analyser = counted(analyser, &mut there)?;
        analyser = unassert(analyser, 300_000, &mut steps)?;
        analyser = counted(analyser, &mut gone)?;
    }
    Ok((first, there, gone))
}

// Replays them with a counter that is made here.
fn replayed_once(alloc: Global) -> Result<(u32, u32, u32), NoMemory> {
    replayed::<Brand>(alloc, Blank::new(1))
}

#[test]
fn quiet_marks(rt: HostRuntime) -> Result<(), NoMemory> {
    assert_eq!(rt; replayed_once(rt.alloc())?, (200_001, 250_000, 250_000));
    Ok(())
}
