//! Half a million moments that each end or revive one attestation among 200,000, and touch one case among as many.
ghost use Rattle.std.specs.Prelude.{◌≡◌};

use crate::quiet::{MANY, Seen, is_seen, routes, seen};
use crate::replaying::happen;
use analyser::{Analyser, Event};
use attestations::Terms;
use av_base::{NoMemory, Steps};
use path_model::{Name, Role};
use std::alloc::Global;
use std::marker::Brand;
use std::sync::ledger::{Blank, Ledger};
use vap_table::TableChange;

// The source `s` has the customers from 3,000,001 on, each with the one provider 1 and an end of its own, all from 1,000,000 on; and 1000, the
// origin of one route, with the same provider, and the end 5.
fn source(alloc: Global) -> Result<Event, NoMemory> {
    let mut terms = Terms::new(alloc);
    for i in 0..MANY {
        terms.unite(3_000_001 + i, &[1], Some(1_000_000 + i))?;
    }
    terms.unite(1000, &[1], Some(5))?;
    let Some(name) = Name::new(alloc, b"s")? else {
        return Err(NoMemory);
    };
    Ok(Event::Table(TableChange::Replace(name, terms)))
}

// From customers, with the source and the routes.
fn loaded<L: Ledger>(alloc: Global, steps: &mut Steps<L>) -> Result<Analyser, NoMemory> {
    let analyser = happen(
        Analyser::new(alloc)?,
        Event::DefaultRole(Role::Customer),
        steps,
    )?;
    let analyser = happen(analyser, source(alloc)?, steps)?;
    happen(analyser, routes(alloc)?, steps)
}

// The analysis is made for this moment.
fn at<L: Ledger>(
    analyser: Analyser,
    moment: u32,
    steps: &mut Steps<L>,
) -> Result<Analyser, NoMemory> {
    happen(analyser, Event::Table(TableChange::At(moment)), steps)
}

// What is seen after 250,000 times the moment 5 and 4 again, and after the moment 5 once more.
fn replayed<L: Ledger>(alloc: Global, blank: Blank) -> Result<(Seen, Seen), NoMemory>
    requires name { blank.name ≡ L.name }
    requires parts { blank.parts ≡ L.parts }
    requires one { L.parts ≡ 1 }
{
    let mut steps = Steps::<L>::new(blank);
    let mut analyser = loaded(alloc, &mut steps)?;
    for _ in 0..250_000u32 {
        analyser = at(analyser, 5, &mut steps)?;
        analyser = at(analyser, 4, &mut steps)?;
    }
    let before = seen(&analyser);
    let analyser = at(analyser, 5, &mut steps)?;
    Ok((before, seen(&analyser)))
}

// Replays them with a counter that is made here.
fn replayed_once(alloc: Global) -> Result<(Seen, Seen), NoMemory> {
    replayed::<Brand>(alloc, Blank::new(1))
}

// A customer's route over a hop that nobody attests is unknown.
#[test]
fn quiet_moments(rt: HostRuntime) -> Result<(), NoMemory> {
    let (before, after) = replayed_once(rt.alloc())?;
    assert!(rt; is_seen(&before, 1, 200_001));
    assert!(rt; is_seen(&after, 0, 200_000));
    Ok(())
}
