//! The states that are held, one for each pair of a prefix and an origin, and which of them an event forgets.
ghost use Rattle.std.specs.Prelude.{◌≡◌, true, IfNone, IfSome, is_some};
ghost use Rattle.std.specs.Option.{option_copied};
ghost use Rattle.origin_validation.specs.Held.{AllHave, AreAlready, HasNoneUnder, IsAlready, IsAmongCovering, IsApart};
ghost use Rattle.origin_validation.specs.Held.{IsUnhitBy, IsUnhitByAll, Keeps, SameHave, at};
ghost use Rattle.origin_validation.specs.Records.{or_none};

use origin_model::{OriginState, PrefixFilter, PrefixFilters, Vrp, VrpChanges, VrpSet, covers};
use path_model::Prefix;
use std::alloc::Global;
use std::collections::BTreeMap;

// The state of each pair of a prefix and an origin that was looked up, and is right still. A pair takes 40 to 75 bytes, most where they
// come in order.
pub(crate) type HeldStates = BTreeMap<(Prefix, u32), OriginState>;

// Forgets the states under what is among one of these alone, where a source had some, or none, and gets the others.
pub(crate) fn forget_replaced(
    held: &mut HeldStates,
    alloc: Global,
    before: Option<&VrpSet>,
    after: &VrpSet,
)
    ensures { Keeps (SameHave (or_none (option_copied before.entry)) after.now)
        held.old.entries held.new.entries }
{
    match before {
        Some(before) => forget_differing(held, before, after),
        None => forget_differing(held, &VrpSet::new(alloc), after),
    }
}

// Forgets the states under what is in one of two sets alone. Where they have more than four times as many payloads as states are held, all
// is forgotten: to look up again what is asked for takes less time than to go through the sets.
pub(crate) fn forget_differing(held: &mut HeldStates, before: &VrpSet, after: &VrpSet)
    ensures { Keeps (SameHave before.now after.now) held.old.entries held.new.entries }
{
    if (before.len() + after.len()) / 4 >= held.len() {
        held.clear();
        return;
    }
    forget_unless(held, before, after);
    forget_unless(held, after, before);
}

// Forgets the states under each payload that changes don't leave as it was, where a source had some payloads, or none.
pub(crate) fn forget_patched(
    held: &mut HeldStates,
    alloc: Global,
    before: Option<&VrpSet>,
    changes: &VrpChanges,
)
    ensures { Keeps (AreAlready (or_none (option_copied before.entry)) changes.now)
        held.old.entries held.new.entries }
{
    match before {
        Some(before) => forget_changed(held, before, changes),
        None => forget_changed(held, &VrpSet::new(alloc), changes),
    }
}

// Those under each payload that changes don't leave as it was. Where there are more than four times as many as states are held, all is
// forgotten.
fn forget_changed(held: &mut HeldStates, before: &VrpSet, changes: &VrpChanges)
    ensures { Keeps (AreAlready before.now changes.now) held.old.entries held.new.entries }
{
    if changes.len() / 4 >= held.len() {
        held.clear();
        return;
    }
    for (v, announced) in changes.entries() {
        forget_said(held, before, v, announced);
    }
}

// Those under a payload that was announced and wasn't there, or withdrawn and was there.
fn forget_said(held: &mut HeldStates, before: &VrpSet, v: &Vrp, announced: bool)
    ensures { Keeps (IsAlready before.now v.now announced) held.old.entries held.new.entries }
{
    if before.contains(v) != announced {
        forget_under(held, &v.prefix());
    }
}

// Those under payloads that are among some and not among others.
fn forget_unless(held: &mut HeldStates, some: &VrpSet, others: &VrpSet)
    ensures { Keeps (AllHave some.now others.now) held.old.entries held.new.entries }
{
    for v in some.entries() {
        forget_one(held, v, others);
    }
}

// Those under a payload, if it isn't among others.
fn forget_one(held: &mut HeldStates, v: &Vrp, others: &VrpSet)
    ensures { Keeps (IsAmongCovering others.now v.now) held.old.entries held.new.entries }
{
    if !others.contains(v) {
        forget_under(held, &v.prefix());
    }
}

// Forgets the states under the prefixes of these filters, and all where a filter has no prefix: what one of them hits covers no pair that
// stays.
pub(crate) fn forget_hit(held: &mut HeldStates, filters: &PrefixFilters)
    ensures { Keeps (IsUnhitByAll filters.now) held.old.entries held.new.entries }
{
    for f in filters.iter() {
        forget_hit_by(held, f);
    }
}

fn forget_hit_by(held: &mut HeldStates, f: &PrefixFilter)
    ensures { Keeps (IsUnhitBy f.now) held.old.entries held.new.entries }
{
    match &f.prefix {
        None => held.clear(),
        Some(prefix) => forget_under(held, prefix),
    }
}

// Forgets the states of the pairs whose prefixes this one covers. It takes the time of two look-ups for each, and of one more.
pub(crate) fn forget_under(held: &mut HeldStates, prefix: &Prefix)
    ensures { Keeps (IsApart prefix.now) held.old.entries held.new.entries }
{
    while let Some(pair) = first_under(held, prefix) {
        held.remove(&pair);
    }
}

// The first pair that is held and whose prefix this one covers, if there is one: what stands between a prefix and one that it covers begins
// with it, so that no other need be looked at.
fn first_under(held: &HeldStates, prefix: &Prefix) -> Option<(Prefix, u32)>
    ensures some { IfSome result (λ p. is_some (at held.now.entries p) ≡ true) }
    ensures none { IfNone result (HasNoneUnder held.now.entries prefix.now) }
{
    let (pair, _) = held.range((*prefix, 0)..).next()?;
    // it comes with what each prefix is
    let _len = pair.0.len();
    if !covers(prefix, &pair.0) {
        return None;
    }
    Some(*pair)
}
