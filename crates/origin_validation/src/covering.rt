//! The state of a route by the payloads of a set that cover it, looked up from the longest covering prefix to the shortest.
ghost use Rattle.std.specs.Prelude.{◌≤◌, ◌↔◌, IsTrue};
ghost use Rattle.origin_model.specs.Covering.{Covers};
ghost use Rattle.origin_model.specs.OriginState.{HasState, Matching};
ghost use Rattle.origin_model.specs.Vrp.{payload_of};
ghost use Rattle.origin_model.specs.VrpSet.{ArePayloads};
ghost use Rattle.origin_validation.specs.Records.{Allows, HasUnhitIn, IsUnhit, IsUnhitIn, IsUnhitOne, IsUnhitUpTo};

use crate::fronts::next_front;
use origin_model::{OriginState, PrefixFilters, Vrp, VrpSet};
use path_model::Prefix;

// The state by the payloads of a set that no filter hits.
pub(crate) fn state_in(
    set: &VrpSet,
    filters: &PrefixFilters,
    prefix: &Prefix,
    origin: Option<u32>,
) -> OriginState
    ensures { HasState (IsUnhit set.now filters.now) prefix.now origin result }
{
    if set.is_empty() {
        return OriginState::NotFound;
    }
    state_up_to(set, prefix.len(), filters, prefix, origin)
}

// The state by those whose prefixes have at most so many bits.
fn state_up_to(
    set: &VrpSet,
    len: u8,
    filters: &PrefixFilters,
    prefix: &Prefix,
    origin: Option<u32>,
) -> OriginState
    requires { len ≤ prefix.now.len }
    ensures { HasState (IsUnhitUpTo set.now filters.now len) prefix.now origin result }
{
    let Some(front) = Prefix::new(prefix.addr(), len) else {
        return OriginState::NotFound;
    };
    let state = state_at(set, &front, filters, prefix, origin);
    if let OriginState::Valid = state {
        return state;
    }
    match next_front(set, &front) {
        None => state,
        Some(next) => state.or(state_up_to(set, next.len(), filters, prefix, origin)),
    }
}

// The state by those with one prefix, which covers the route's. A few are gone through; among many the one that matches is looked for, so
// that it takes no longer where they are more.
fn state_at(
    set: &VrpSet,
    front: &Prefix,
    filters: &PrefixFilters,
    prefix: &Prefix,
    origin: Option<u32>,
) -> OriginState
    requires { Covers front.now prefix.now }
    ensures { HasState (IsUnhitIn set.now filters.now front.now) prefix.now origin result }
{
    if is_crowded(set, front) {
        return state_by_lengths(set, front, filters, prefix, origin);
    }
    state_by_each(set, front, filters, prefix, origin)
}

// Whether more than 128 payloads have this prefix.
fn is_crowded(set: &VrpSet, front: &Prefix) -> bool
    ensures { ArePayloads set.now }
{
    set.of_prefix(front).nth(128).is_some()
}

// That state, where they are gone through one after another.
fn state_by_each(
    set: &VrpSet,
    front: &Prefix,
    filters: &PrefixFilters,
    prefix: &Prefix,
    origin: Option<u32>,
) -> OriginState
    ensures { HasState (IsUnhitIn set.now filters.now front.now) prefix.now origin result }
{
    let mut state = OriginState::NotFound;
    for v in set.of_prefix(front) {
        let more = state_by(v, filters, prefix, origin);
        state = state.or(more);
        if let OriginState::Valid = state {
            return state;
        }
    }
    state
}

// That state, where the payload that matches is looked for at each maximum length, and the first that no filter hits covers.
fn state_by_lengths(
    set: &VrpSet,
    front: &Prefix,
    filters: &PrefixFilters,
    prefix: &Prefix,
    origin: Option<u32>,
) -> OriginState
    requires covers { Covers front.now prefix.now }
    requires payloads { ArePayloads set.now }
    ensures { HasState (IsUnhitIn set.now filters.now front.now) prefix.now origin result }
{
    if is_matched(set, front, filters, prefix, origin) {
        return OriginState::Valid;
    }
    if has_unhit(set, front, filters) {
        return OriginState::Invalid;
    }
    OriginState::NotFound
}

// Whether one of those with one prefix, which covers the route's, matches.
fn is_matched(
    set: &VrpSet,
    front: &Prefix,
    filters: &PrefixFilters,
    prefix: &Prefix,
    origin: Option<u32>,
) -> bool
    requires covers { Covers front.now prefix.now }
    requires payloads { ArePayloads set.now }
    ensures { IsTrue result ↔ Matching (IsUnhitIn set.now filters.now front.now) prefix.now origin }
{
    let Some(asn) = origin else {
        return false;
    };
    if asn == 0 {
        return false;
    }
    allows(set, front, filters, prefix.len(), asn)
}

// Whether one of those with one prefix has this AS, and a maximum of at least so many bits.
fn allows(set: &VrpSet, front: &Prefix, filters: &PrefixFilters, len: u8, asn: u32) -> bool
    requires { ArePayloads set.now }
    ensures { IsTrue result ↔ Allows set.now filters.now front.now len asn }
{
    let mut max = 129;
    while max > len {
        max -= 1;
        if is_unhit(set, filters, front, max, asn) {
            return true;
        }
    }
    false
}

// Whether the payload of a prefix, a maximum and an AS is there, and no filter hits it.
fn is_unhit(set: &VrpSet, filters: &PrefixFilters, front: &Prefix, max: u8, asn: u32) -> bool
    requires { ArePayloads set.now }
    ensures { IsTrue result ↔ IsUnhit set.now filters.now (payload_of front.now max asn) }
{
    match Vrp::new(*front, max, asn) {
        None => false,
        Some(v) => set.contains(&v) && !filters.hit(&v),
    }
}

// Whether there is one with one prefix that no filter hits.
fn has_unhit(set: &VrpSet, front: &Prefix, filters: &PrefixFilters) -> bool
    ensures { IsTrue result ↔ HasUnhitIn set.now filters.now front.now }
{
    for v in set.of_prefix(front) {
        if !filters.hit(v) {
            return true;
        }
    }
    false
}

// The state by one payload, if no filter hits it.
fn state_by(v: &Vrp, filters: &PrefixFilters, prefix: &Prefix, origin: Option<u32>) -> OriginState
    ensures { HasState (IsUnhitOne v.now filters.now) prefix.now origin result }
{
    if filters.hit(v) {
        return OriginState::NotFound;
    }
    OriginState::by_payload(v, prefix, origin)
}
