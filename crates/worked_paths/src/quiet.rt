//! Half a million events that each touch one case among 200,000.
ghost use Rattle.std.specs.Prelude.{◌≡◌};

use crate::replaying::{assert_one, happen, unassert};
use analyser::{Analyser, Event};
use attestations::Terms;
use av_base::{NoMemory, Steps};
use path_model::{Addr, AsList, Changes, Key, Name, Peer, Prefix, Role, Rows, Trail};
use rib_store::Counts;
use std::alloc::Global;
use std::marker::Brand;
use std::sync::ledger::{Blank, Ledger};
use vap_table::TableChange;

// How many customers the source has, and how many routes are announced.
pub(crate) const MANY: u32 = 200_000;

// 10.0.0.1 in AS 1.
const PEER: Peer = Peer {
    addr: Addr::V4(0x0A00_0001),
    asn: 1,
};

// The source `s` has the customers from 3,000,001 to 3,200,000, each with the one provider 1.
fn source(alloc: Global) -> Result<Event, NoMemory> {
    let mut rows = Rows::new(alloc);
    for i in 0..MANY {
        rows.set(3_000_001 + i, AsList::from_slice(alloc, &[1])?)?;
    }
    let Some(name) = Name::new(alloc, b"s")? else {
        return Err(NoMemory);
    };
    Ok(Event::Table(TableChange::Replace(name, Terms::of(alloc, rows)?)))
}

// Routes to as many networks of 24 bits from 11.0.0.0 on, each from an origin of its own.
pub(crate) fn routes(alloc: Global) -> Result<Event, NoMemory> {
    let mut changes = Changes::new(alloc);
    for i in 0..MANY {
        if let Some(prefix) = Prefix::new(Addr::V4(0x0B00_0000 + 256 * i), 24) {
            let trail = Trail::new(alloc, false, &[1, 1000 + i])?;
            let key = Key {
                peer: PEER,
                prefix,
                path: None,
            };
            changes.announce(key, trail)?;
        }
    }
    Ok(Event::Routes(changes))
}

// The counts, and how many customers have a row.
pub(crate) type Seen = (Counts, u64);

pub(crate) fn seen(analyser: &Analyser) -> Seen {
    let store = analyser.store();
    (store.counts(), store.table().customers())
}

// From customers, with the source and the routes.
fn loaded<L: Ledger>(alloc: Global, steps: &mut Steps<L>) -> Result<Analyser, NoMemory> {
    let analyser = happen(
        Analyser::new(alloc)?,
        Event::DefaultRole(Role::Customer),
        steps,
    )?;
    let analyser = happen(analyser, source(alloc)?, steps)?;
    happen(analyser, routes(alloc)?, steps)
}

// What is seen after 250,000 assertions that 1000, the origin of one route, attests 1, which were each taken back, and after one more.
fn replayed<L: Ledger>(alloc: Global, blank: Blank) -> Result<(Seen, Seen), NoMemory>
    requires name { blank.name ≡ L.name }
    requires parts { blank.parts ≡ L.parts }
    requires one { L.parts ≡ 1 }
{
    let mut steps = Steps::<L>::new(blank);
    let mut analyser = loaded(alloc, &mut steps)?;
    for _ in 0..250_000u32 {
        analyser = assert_one(alloc, analyser, 1000, 1, &mut steps)?;
        analyser = unassert(analyser, 1000, &mut steps)?;
    }
    let before = seen(&analyser);
    let analyser = assert_one(alloc, analyser, 1000, 1, &mut steps)?;
    Ok((before, seen(&analyser)))
}

// Replays them with a counter that is made here.
fn replayed_once(alloc: Global) -> Result<(Seen, Seen), NoMemory> {
    replayed::<Brand>(alloc, Blank::new(1))
}

// Whether so many routes are valid and all others unknown, and so many customers have a row.
pub(crate) fn is_seen(seen: &Seen, valid: u64, customers: u64) -> bool {
    let counts = Counts {
        routes: 200_000,
        valid,
        unknown: 200_000u64.wrapping_sub(valid),
        invalid: 0,
    };
    seen.0 == counts && seen.1 == customers
}

// A customer's route over a hop that nobody attests is unknown.
#[test]
fn quiet(rt: HostRuntime) -> Result<(), NoMemory> {
    let (before, after) = replayed_once(rt.alloc())?;
    assert!(rt; is_seen(&before, 0, 200_000));
    assert!(rt; is_seen(&after, 1, 200_001));
    Ok(())
}
