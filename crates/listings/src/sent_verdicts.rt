//! The verdicts of the routes that are sent, each under the number of its case.
ghost use Rattle.std.specs.Prelude.{◌≡◌, ◌<◌, ◌≤◌, ◌+◌, ℕ, is_some, length, None, IfOk, OnOk, OnErr, IsSome};
ghost use Rattle.std.specs.List.{count_by};
ghost use Rattle.shared_cases.specs.Cases.{at};
ghost use Rattle.listings.specs.EachSent.{verdict_at, AreHeld, AreSeen, HoldsOne};
ghost use Rattle.listings.specs.Sent.{goes_up, IsSentPair};
ghost use Rattle.listings.specs.Tallies.{IsNumberOf};

use crate::behind::seen_verdict;
use av_base::{NoMemory, Steps};
use path_model::{Role, Verdict};
use rib_store::RibStore;
use std::alloc::Global;
use std::sync::ledger::Ledger;

/// The verdicts of the routes that are sent as they are seen behind these ASes, each under the number of its case, and `None` under all other
/// numbers. Each case is judged once. It takes a byte for each number that a case ever had, and goes over all routes.
pub(crate) fn sent_verdicts<L: Ledger>(
    alloc: Global,
    store: &RibStore,
    role: Role,
    ases: &[u32],
    steps: &mut Steps<L>,
) -> Result<Vec<Option<Verdict>>, NoMemory>
    ensures seen { IfOk result (λ verdicts. AreSeen store.now role ases.now verdicts.items) }
    ensures held { IfOk result (λ verdicts. AreHeld store.now verdicts.items) }
    ensures ticked { IfOk result (λ verdicts.
        steps.new ≡ steps.old + count_by is_some verdicts.items) }
    ensures most { (pairs : ℕ) → IsNumberOf (IsSentPair store.now.state) pairs
        → steps.new ≤ steps.old + pairs }
{
    store.cases_are_those_of_the_routes();
    let mut verdicts = Vec::new(alloc);
    for (key, number) in store.numbered() {
        if goes_up(store.roles().of(key.peer.asn)) && held_at(&verdicts, number).is_none() {
            hold(alloc, store, role, ases, number, &mut verdicts, steps)?;
        }
    }
    Ok(verdicts)
}

// Judges the case of a number, and holds its verdict. Where there is no memory it is one step at most.
fn hold<L: Ledger>(
    alloc: Global,
    store: &RibStore,
    role: Role,
    ases: &[u32],
    number: u32,
    verdicts: &mut Vec<Option<Verdict>>,
    steps: &mut Steps<L>,
) -> Result<(), NoMemory>
    requires stored { IsSome (at store.now.cases number) }
    requires free { verdict_at verdicts.old.items number ≡ None }
    ensures held { OnOk result
        (HoldsOne store.now role ases.now number verdicts.old.items verdicts.new.items) }
    ensures ticked { OnOk result (steps.new ≡ steps.old + 1) }
    ensures none { OnErr result (steps.new ≡ steps.old) }
{
    let Some(case) = store.case(number as usize) else {
        return Ok(());
    };
    make_room(verdicts, number as usize)?;
    let verdict = seen_verdict(alloc, store.table(), role, ases, case.trail, steps)?;
    verdicts[number as usize] = Some(verdict);
    Ok(())
}

// There is room for a verdict under this number from now on.
fn make_room(verdicts: &mut Vec<Option<Verdict>>, number: usize) -> Result<(), NoMemory>
    ensures room { OnOk result (number < length verdicts.new.items) }
    ensures same { OnOk result ((n : ℕ)
        → verdict_at verdicts.new.items n ≡ verdict_at verdicts.old.items n) }
    ensures counted { OnOk result
        (count_by is_some verdicts.new.items ≡ count_by is_some verdicts.old.items) }
{
    if number > verdicts.len() {
        verdicts.resize(number, None)?;
    }
    if number == verdicts.len() {
        verdicts.push(None)?;
    }
    Ok(())
}

/// The verdict that is held under a number, if one is.
#[inline(always)]
pub(crate) fn held_at(verdicts: &[Option<Verdict>], number: u32) -> Option<Verdict>
    ensures { result ≡ verdict_at verdicts.now number }
{
    match verdicts.get(number as usize) {
        None => None,
        Some(held) => *held,
    }
}

// Whether what we hear from an AS in this role may be sent upwards.
fn goes_up(role: Role) -> bool
    ensures { result ≡ goes_up role }
{
    match role {
        Role::Customer | Role::Mutual => true,
        Role::Provider | Role::Peer | Role::Rs | Role::RsClient => false,
    }
}
