//! The analysis, from event to event.
ghost use Rattle.std.specs.Prelude.{◌≡◌, ◌≤◌, IfOk, OnOk};
ghost use Rattle.std.specs.FinMap as fin;
ghost use Rattle.analyser.specs.Events.{Happens};
ghost use Rattle.analyser.specs.Touched.{TicksWithin};
ghost use Rattle.rib_store.specs.Changes.{IsMarked};
ghost use Rattle.rib_store.specs.State.{no_state};

use crate::Event;
use crate::departures::departures;
use av_base::{NoMemory, Steps};
use rib_store::RibStore;
use std::alloc::Global;
use std::marker::Model;
use std::mem;
use std::sync::ledger::Ledger;

/// What an analysis has come to, by all events so far.
pub struct Analyser {
    alloc: Global,
    // in a box, so that who hands an analysis on moves no more than its place
    store: Box<RibStore>,
}

/// Written by hand and not derived: a check of a function that lets an analysis go then has one call there, and not each field.
impl Drop for Analyser {
    fn drop(self) {
        let Analyser {
            alloc: _alloc,
            store: _store,
        } = self;
    }
}

/// A contract sees the state.
impl Model for Analyser {
    ghost use Rattle.rib_store.specs.Codes.{coded_state};
    ghost use Rattle.rib_store.specs.State.{State};

    ghost Value = { State };

    ghost coded = { coded_state };

    ghost view = { λ a. a.store.value.state };
}

impl Analyser {
    /// Nothing has happened yet.
    pub fn new(alloc: Global) -> Result<Analyser, NoMemory>
        ensures { IfOk result (λ a. a ≡ no_state) }
    {
        let store = Box::new(alloc, RibStore::new(alloc))?;
        Ok(Analyser { alloc, store })
    }

    /// The analysis after one more event. It takes a step for each judgement, whether it ends well or not: at most one for each route that
    /// it announces, and one for each distinct pair of a peer AS and a path of routes that it touches.
    pub fn step<L: Ledger>(self, event: Event, steps: &mut Steps<L>) -> Result<Analyser, NoMemory>
        ensures state { IfOk result (λ next. Happens self event next) }
        ensures ticks { TicksWithin self event steps.old steps.new }
    {
        let mut next = self;
        next.apply(event, steps)?;
        Ok(next)
    }

    /// The same in its place ([`Analyser::step`]). Where memory is wanting nothing is promised of it.
    pub fn apply<L: Ledger>(&mut self, event: Event, steps: &mut Steps<L>) -> Result<(), NoMemory>
        ensures state { OnOk result (Happens self.old event self.new) }
        ensures ticks { TicksWithin self.old event steps.old steps.new }
    {
        happen(self.alloc, &mut self.store, event, steps)
    }

    /// All routes go, in one event: the session of each peer that has routes ends. All that attests, the roles and the marked verdicts stay.
    /// It judges nothing, and takes the time of the routes that go, with the memory of one change for each of their peers and what the end of
    /// one session takes ([`RibStore::apply_routes`]). Where memory is wanting nothing is promised of it.
    pub fn clear<L: Ledger>(&mut self, steps: &mut Steps<L>) -> Result<(), NoMemory>
        ensures cleared { OnOk result (self.new ≡ record self.old { routes = fin.empty }) }
        ensures ticks { steps.new ≤ steps.old }
    {
        let changes = departures(self.alloc, self.store())?;
        self.apply(Event::Routes(changes), steps)
    }

    /// The analysis once all verdicts are marked as they stand. It takes no memory.
    pub fn mark(self) -> Analyser
        ensures { IsMarked self result }
    {
        let mut next = self;
        next.mark_all();
        next
    }

    /// The same in its place ([`Analyser::mark`]).
    pub fn mark_all(&mut self)
        ensures { IsMarked self.old self.new }
    {
        *self.store = taken(self.alloc, &mut self.store).mark();
    }

    /// Gathers in its store what lets a list of changes go over the changed keys alone ([`RibStore::gather`]), and changes nothing else. Where
    /// memory is wanting nothing is promised of it.
    pub fn gather(&mut self) -> Result<(), NoMemory>
        ensures { OnOk result (self.new ≡ self.old) }
    {
        *self.store = taken(self.alloc, &mut self.store).gather()?;
        Ok(())
    }

    /// The hops of its paths stand in lists from now on, so that those of an AS are found without going over all paths
    /// ([`RibStore::list_hops`]), and nothing else changes.
    pub fn list_hops(&mut self) -> Result<(), NoMemory>
        ensures { self.new ≡ self.old }
    {
        self.store.list_hops()
    }

    /// The store, for what is read of it.
    pub fn store(&self) -> &RibStore
        ensures { result.now.state ≡ self.now }
    {
        &self.store
    }
}

// An event happens to a store. Where memory is wanting nothing is promised of the store.
#[inline(always)]
fn happen<L: Ledger>(
    alloc: Global,
    store: &mut RibStore,
    event: Event,
    steps: &mut Steps<L>,
) -> Result<(), NoMemory>
    ensures state { OnOk result (Happens store.old.state event store.new.state) }
    ensures ticks { TicksWithin store.old.state event steps.old steps.new }
{
    match event {
        Event::Routes(changes) => store.apply_routes(changes, steps),
        other => alter(alloc, store, other, steps),
    }
}

// The same of any event. It isn't inlined, so that the room that a whole store takes isn't cleared where routes alone change.
#[inline(never)]
fn alter<L: Ledger>(
    alloc: Global,
    store: &mut RibStore,
    event: Event,
    steps: &mut Steps<L>,
) -> Result<(), NoMemory>
    ensures state { OnOk result (Happens store.old.state event store.new.state) }
    ensures ticks { TicksWithin store.old.state event steps.old steps.new }
{
    match event {
        Event::Routes(changes) => store.apply_routes(changes, steps),
        Event::Table(change) => {
            *store = taken(alloc, store).apply_table(change, steps)?;
            Ok(())
        }
        Event::Role(asn, role) => {
            *store = taken(alloc, store).set_role(asn, role, steps)?;
            Ok(())
        }
        Event::DefaultRole(role) => {
            *store = taken(alloc, store).set_default(role, steps)?;
            Ok(())
        }
    }
}

// The store, in whose place an empty one stands.
fn taken(alloc: Global, store: &mut RibStore) -> RibStore
    ensures { result ≡ store.old }
{
    mem::replace(store, RibStore::new(alloc))
}
