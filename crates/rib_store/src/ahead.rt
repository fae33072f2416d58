//! What the batches of an event need, got ahead of its use: hints at their cases, and the hops of the paths that have none. No contract speaks of
//! it: a hint is tested where it is used, and what is read is at hand afterwards.

use hop_index::HopsAhead;
use path_model::{Batch, Change};
use route_map::RouteMap;
use shared_cases::SharedCases;

// For how many batches of one event the cases are looked up ahead of their use.
pub(crate) const MOST_HINTS: usize = 64;

// Gets hints for the first batches, all before the first is used.
pub(crate) fn look_ahead(
    routes: &RouteMap<u32>,
    cases: &SharedCases,
    batches: &[Batch],
    hints: &mut [Option<u32>],
) {
    // one alone would be looked up twice
    if batches.len() < 2 {
        return;
    }
    for (hint, batch) in hints.iter_mut().zip(batches.iter()) {
        *hint = latest_of(routes, cases, batch);
    }
    for (hint, batch) in hints.iter_mut().zip(batches.iter()) {
        if hint.is_none() {
            *hint = near_of(cases, batch);
        }
    }
    for (hint, batch) in hints.iter_mut().zip(batches.iter()) {
        if hint.is_none() {
            *hint = hint_of(cases, batch);
        }
    }
    for (hint, _) in hints.iter_mut().zip(batches.iter()) {
        *hint = cases.fetched(*hint);
    }
    read_hops_ahead(cases, batches, hints);
}

// Reads the hops of the cases that have no hint, for they will have one case more.
fn read_hops_ahead(cases: &SharedCases, batches: &[Batch], hints: &mut [Option<u32>]) {
    let mut hops = HopsAhead::none();
    for (hint, batch) in hints.iter().zip(batches.iter()) {
        if hint.is_none() {
            look_up_hops(cases, batch, &mut hops);
        }
    }
    let read = cases.read_hops(&hops);
    // it never is, but what was read must have a use
    if read == usize::MAX {
        clear(hints);
    }
}

// No hints.
fn clear(hints: &mut [Option<u32>]) {
    for hint in hints.iter_mut() {
        *hint = None;
    }
}

// Looks up the hops of a batch's path.
#[inline(always)]
fn look_up_hops(cases: &SharedCases, batch: &Batch, hops: &mut HopsAhead) {
    match batch {
        Batch::One(Change::Announce(_, trail)) => cases.look_up_hops(trail, hops),
        Batch::AnnounceAll(_, trail, _) => cases.look_up_hops(trail, hops),
        _ => {}
    }
}

// The number of the case of a batch, where the last route of its peer has that too, as half of a table's do.
#[inline(always)]
fn latest_of(routes: &RouteMap<u32>, cases: &SharedCases, batch: &Batch) -> Option<u32> {
    match batch {
        Batch::One(Change::Announce(key, trail)) => {
            cases.hinted(routes.latest(key).copied(), key.peer.asn, trail)
        }
        _ => None,
    }
}

// Under which number the case of a batch is likely to stand, where that takes one look.
#[inline(always)]
fn near_of(cases: &SharedCases, batch: &Batch) -> Option<u32> {
    match batch {
        Batch::One(Change::Announce(key, trail)) => cases.near(key.peer.asn, trail),
        Batch::AnnounceAll(peer, trail, _) => cases.near(peer.asn, trail),
        _ => None,
    }
}

// Under which number the case of a batch is likely to stand.
#[inline(always)]
fn hint_of(cases: &SharedCases, batch: &Batch) -> Option<u32> {
    match batch {
        Batch::One(Change::Announce(key, trail)) => cases.hint(key.peer.asn, trail),
        Batch::AnnounceAll(peer, trail, _) => cases.hint(peer.asn, trail),
        _ => None,
    }
}

// The hint at a place, if there is one.
#[inline(always)]
pub(crate) fn hint_at(hints: &[Option<u32>], place: usize) -> Option<u32> {
    match hints.get(place) {
        None => None,
        Some(hint) => *hint,
    }
}
