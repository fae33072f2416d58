//! Changes of the routes, one by one.
ghost use Rattle.std.specs.Prelude.{◌≡◌, ◌≤◌, ◌+◌, [], not, IfNone, IfOk, IfSome, OnOk};
ghost use Rattle.std.specs.FinMap as fin;
ghost use Rattle.std.specs.Map.{values_of};
ghost use Rattle.attestations.specs.ComputedTable.{table_of};
ghost use Rattle.attestations.specs.CurrentTable.{Parts};
ghost use Rattle.path_model.specs.Roles.{Relations};
ghost use Rattle.path_model.specs.Batches.{announcements, changes_in, removals};
ghost use Rattle.path_model.specs.Routes.{changed, performed, is_of_peer};
ghost use Rattle.shared_cases.specs.Cases.{at, IsStoredAs};
ghost use Rattle.shared_cases.specs.Grounds.{lent};
ghost use Rattle.shared_cases.specs.Taking.{Takes};
ghost use Rattle.rib_store.specs.Cased.{routes_by};
ghost use Rattle.rib_store.specs.Marks.{AreIdle};
ghost use Rattle.rib_store.specs.OfPeer.{HasNoRouteOf, IsRouteOf};
ghost use Rattle.rib_store.specs.Routing.{path_by, state_on, AreJudgedAnew, AreRouted, AreRoutedOn, IsFound};
ghost use Rattle.rib_store.specs.Steps.{Leaves};
ghost use Rattle.rib_store.specs.Touched.{announces, announced};

use crate::ahead::{MOST_HINTS, hint_at, look_ahead};
use crate::marks::Marks;
use av_base::{NoMemory, Steps};
use path_model::{Batch, Change, Changes, Key, NlriList, Peer, Trail};
use route_map::{PeerTable, RouteMap};
use shared_cases::{FoundCases, Grounds, SharedCases};
use std::alloc::Global;
use std::sync::ledger::Ledger;
use vap_table::Vaps;

// What changes where routes change: of a store everything but the table and the roles.
#[derive(Drop)]
pub(crate) struct Routing {
    pub(crate) routes: RouteMap<u32>,
    pub(crate) cases: SharedCases,
    pub(crate) marks: Marks,
}

// How the case of an announcement is found.
#[derive(Clone, Copy)]
pub(crate) enum CaseBy<'a> {
    // by its path, with a hint
    Path(&'a Trail, Option<u32>),
    // it is the one that has this number
    Number(u32),
}

impl Routing {
    // No routes. It takes no memory.
    pub(crate) fn new(alloc: Global) -> Routing
        ensures routes { result.routes ≡ [] }
        ensures cases { result.cases ≡ [] }
        ensures routed { (parts : Parts) (relations : Relations)
            → AreRouted parts relations result }
    {
        Routing {
            routes: RouteMap::new(alloc),
            cases: SharedCases::new(alloc),
            marks: Marks::new(alloc),
        }
    }

    // Performs changes of the routes, from the first to the last.
    #[tactic(auto, using(crate::proofs::BatchLemmas::performed_append, crate::proofs::BatchLemmas::announced_append))]
    pub(crate) fn perform_all<L: Ledger>(
        &mut self,
        alloc: Global,
        changes: &Changes,
        on: &Grounds<'_, Vaps>,
        steps: &mut Steps<L>,
    ) -> Result<(), NoMemory>
        requires { AreRoutedOn on.now self.old }
        ensures routed { OnOk result (AreRoutedOn on.now self.new) }
        ensures state { OnOk result (state_on on.now self.new
            ≡ record (state_on on.now self.old) {
              routes = performed changes.now (state_on on.now self.old).routes;
            }) }
        ensures ticks { steps.new ≤ steps.old + announced changes.now }
    {
        let mut hints = [None; MOST_HINTS];
        look_ahead(&self.routes, &self.cases, changes.batches(), &mut hints);
        let mut place: usize = 0;
        let batches = changes.batches().iter();
        for batch in batches {
            let hint = hint_at(&hints, place);
            place = place.wrapping_add(1);
            self.perform_batch(alloc, batch, hint, on, steps)?;
        }
        Ok(())
    }

    // Performs the changes of one batch.
    #[inline(always)]
    fn perform_batch<L: Ledger>(
        &mut self,
        alloc: Global,
        batch: &Batch,
        hint: Option<u32>,
        on: &Grounds<'_, Vaps>,
        steps: &mut Steps<L>,
    ) -> Result<(), NoMemory>
        requires { AreRoutedOn on.now self.old }
        ensures routed { OnOk result (AreRoutedOn on.now self.new) }
        ensures state { OnOk result (state_on on.now self.new
            ≡ record (state_on on.now self.old) {
              routes = performed (changes_in batch.now)
                  (state_on on.now self.old).routes;
            }) }
        ensures ticks { steps.new ≤ steps.old + announced (changes_in batch.now) }
    {
        match batch {
            Batch::One(change) => self.perform(alloc, change, hint, on, steps),
            Batch::RemoveAll(peer, nlris) => self.withdraw_all(peer, nlris, on),
            Batch::AnnounceAll(peer, trail, nlris) => {
                self.announce_all(peer, CaseBy::Path(trail, hint), nlris, on, steps)
            }
        }
    }

    // Performs one change of the routes.
    #[inline(always)]
    fn perform<L: Ledger>(
        &mut self,
        alloc: Global,
        change: &Change,
        hint: Option<u32>,
        on: &Grounds<'_, Vaps>,
        steps: &mut Steps<L>,
    ) -> Result<(), NoMemory>
        requires { AreRoutedOn on.now self.old }
        ensures routed { OnOk result (AreRoutedOn on.now self.new) }
        ensures state { OnOk result (state_on on.now self.new
            ≡ record (state_on on.now self.old) {
              routes = changed change.now (state_on on.now self.old).routes;
            }) }
        ensures ticks { steps.new ≤ steps.old + announces change.now }
    {
        match change {
            Change::Remove(key) => self.withdraw(key, on)?,
            Change::Announce(key, trail) => {
                self.announce(key, CaseBy::Path(trail, hint), on, steps)?;
            }
            Change::RemovePeer(peer) => self.withdraw_peer(alloc, peer, on)?,
        }
        Ok(())
    }

    // The peer's routes to these prefixes have this path from now on. Its case is found once. As the two that withdraw many, it isn't inlined,
    // so that its room isn't cleared at each batch.
    #[inline(never)]
    fn announce_all<L: Ledger>(
        &mut self,
        peer: &Peer,
        by: CaseBy<'_>,
        nlris: &NlriList,
        on: &Grounds<'_, Vaps>,
        steps: &mut Steps<L>,
    ) -> Result<(), NoMemory>
        requires routed { AreRoutedOn on.now self.old }
        requires found { IsFound self.old.cases peer.now.asn by }
        ensures routed { OnOk result (AreRoutedOn on.now self.new) }
        ensures state { OnOk result (state_on on.now self.new
            ≡ record (state_on on.now self.old) {
              routes = performed
                  (announcements peer.now (path_by self.old.cases by.entry) nlris.now)
                  (state_on on.now self.old).routes;
            }) }
        ensures ticks { steps.new
            ≤ steps.old + announced (announcements peer.now (path_by self.old.cases by.entry) nlris.now) }
    {
        let mut by = by;
        for nlri in nlris.iter() {
            let number = self.announce(&Key::new(*peer, nlri), by, on, steps)?;
            by = CaseBy::Number(number);
        }
        Ok(())
    }

    // The key has this path from now on. The answer is the number of its case.
    fn announce<L: Ledger>(
        &mut self,
        key: &Key,
        by: CaseBy<'_>,
        on: &Grounds<'_, Vaps>,
        steps: &mut Steps<L>,
    ) -> Result<u32, NoMemory>
        requires routed { AreRoutedOn on.now self.old }
        requires found { IsFound self.old.cases key.now.peer.asn by }
        ensures routed { OnOk result (AreRoutedOn on.now self.new) }
        ensures state { OnOk result (state_on on.now self.new
            ≡ record (state_on on.now self.old) {
              routes = fin.insert (state_on on.now self.old).routes key.now
                  (path_by self.old.cases by.entry);
            }) }
        ensures case { IfOk result (λ n.
            IsStoredAs (at self.new.cases n) key.now.peer.asn (path_by self.old.cases by.entry)) }
        ensures ticks { steps.new ≤ steps.old + 1 }
    {
        // it comes with the order of the keys
        let _length = self.routes.len();
        let number = take(&mut self.cases, key.peer.asn, by, on, steps)?;
        let before = self.routes.insert(*key, number)?;
        self.marks.follow(&self.cases, key, before, Some(number))?;
        leave(&mut self.cases, before);
        Ok(number)
    }

    // The peer has no routes to these prefixes from now on.
    #[inline(never)]
    fn withdraw_all(
        &mut self,
        peer: &Peer,
        nlris: &NlriList,
        on: &Grounds<'_, Vaps>,
    ) -> Result<(), NoMemory>
        requires { AreRoutedOn on.now self.old }
        ensures routed { OnOk result (AreRoutedOn on.now self.new) }
        ensures state { OnOk result (state_on on.now self.new
            ≡ record (state_on on.now self.old) {
              routes = performed (removals peer.now nlris.now)
                  (state_on on.now self.old).routes;
            }) }
    {
        for nlri in nlris.iter() {
            self.withdraw(&Key::new(*peer, nlri), on)?;
        }
        Ok(())
    }

    // The key has no route from now on.
    fn withdraw(&mut self, key: &Key, on: &Grounds<'_, Vaps>) -> Result<(), NoMemory>
        requires { AreRoutedOn on.now self.old }
        ensures routed { OnOk result (AreRoutedOn on.now self.new) }
        ensures state { OnOk result (state_on on.now self.new
            ≡ record (state_on on.now self.old) {
              routes = fin.remove (state_on on.now self.old).routes key.now;
            }) }
    {
        // it comes with the order of the keys
        let _length = self.routes.len();
        let before = self.routes.remove(key);
        self.marks.follow(&self.cases, key, before, None)?;
        leave(&mut self.cases, before);
        Ok(())
    }

    // The peer has no route from now on. It costs what the peer's routes cost. Where nothing was marked they are taken out whole; else each is
    // noted as it goes.
    #[inline(never)]
    fn withdraw_peer(
        &mut self,
        alloc: Global,
        peer: &Peer,
        on: &Grounds<'_, Vaps>,
    ) -> Result<(), NoMemory>
        requires { AreRoutedOn on.now self.old }
        ensures routed { OnOk result (AreRoutedOn on.now self.new) }
        ensures state { OnOk result (state_on on.now self.new
            ≡ record (state_on on.now self.old) {
              routes = fin.retain_keys (state_on on.now self.old).routes
                  (λ key. not (is_of_peer peer.now key));
            }) }
    {
        if self.marks.are_idle() {
            self.take_peer(alloc, peer, on)
        } else {
            self.withdraw_each(peer, on)
        }
    }

    // The same where nothing was marked. Each case is left once, whatever number of the routes has it.
    fn take_peer(
        &mut self,
        alloc: Global,
        peer: &Peer,
        on: &Grounds<'_, Vaps>,
    ) -> Result<(), NoMemory>
        requires routed { AreRoutedOn on.now self.old }
        requires idle { AreIdle self.old.marks }
        ensures routed { OnOk result (AreRoutedOn on.now self.new) }
        ensures state { OnOk result (state_on on.now self.new
            ≡ record (state_on on.now self.old) {
              routes = fin.retain_keys (state_on on.now self.old).routes
                  (λ key. not (is_of_peer peer.now key));
            }) }
    {
        let taken = self.routes.take_peer(peer);
        let numbers = numbers_of(alloc, taken)?;
        self.cases.leave_all(numbers)?;
        Ok(())
    }

    // The same, one route after another.
    fn withdraw_each(&mut self, peer: &Peer, on: &Grounds<'_, Vaps>) -> Result<(), NoMemory>
        requires { AreRoutedOn on.now self.old }
        ensures routed { OnOk result (AreRoutedOn on.now self.new) }
        ensures state { OnOk result (state_on on.now self.new
            ≡ record (state_on on.now self.old) {
              routes = fin.retain_keys (state_on on.now self.old).routes
                  (λ key. not (is_of_peer peer.now key));
            }) }
    {
        while let Some(key) = self.one_of(peer) {
            self.withdraw(&key, on)?;
        }
        Ok(())
    }

    // Some key of the peer that has a route.
    fn one_of(&self, peer: &Peer) -> Option<Key>
        ensures none { IfNone result
            (HasNoRouteOf (routes_by self.now.cases self.now.routes) peer.now) }
        ensures some { IfSome result
            (IsRouteOf (routes_by self.now.cases self.now.routes) peer.now) }
    {
        match self.routes.one_of(peer) {
            None => None,
            Some(key) => Some(key),
        }
    }
}

// The routes and the marks, with cases that were judged anew: the keys of those that newly differ are to be noted.
pub(crate) fn judged_anew(
    routes: RouteMap<u32>,
    cases: SharedCases,
    marks: Marks,
    differing: &FoundCases,
) -> Result<Routing, NoMemory>
    ensures { IfOk result (AreJudgedAnew routes cases marks differing.now) }
{
    let mut marks = marks;
    marks.defer(differing)?;
    Ok(Routing {
        routes,
        cases,
        marks,
    })
}

// One route more has the case.
#[inline(always)]
fn take<L: Ledger>(
    cases: &mut SharedCases,
    asn: u32,
    by: CaseBy<'_>,
    on: &Grounds<'_, Vaps>,
    steps: &mut Steps<L>,
) -> Result<u32, NoMemory>
    requires { IsFound cases.old asn by }
    ensures taken { IfOk result (λ n. Takes (lent table_of on.now) asn
        (path_by cases.old by.entry) cases.old cases.new n) }
    ensures ticks { steps.new ≤ steps.old + 1 }
{
    match by {
        CaseBy::Path(trail, hint) => cases.take(asn, trail, hint, on, steps),
        CaseBy::Number(number) => {
            cases.take_again(number)?;
            Ok(number)
        }
    }
}

// One route less has the case that a key had, if it had one.
#[inline(always)]
fn leave(cases: &mut SharedCases, before: Option<u32>)
    ensures { Leaves cases.old before cases.new }
{
    match before {
        None => {}
        Some(number) => cases.leave(number),
    }
}

// The numbers of these routes' cases, and the routes go.
fn numbers_of(alloc: Global, routes: PeerTable<u32>) -> Result<Vec<u32>, NoMemory>
    ensures { IfOk result (λ numbers. numbers.items ≡ values_of routes) }
{
    let mut numbers = Vec::with_capacity(alloc, routes.len())?;
    routes.push_values(&mut numbers)?;
    Ok(numbers)
}
