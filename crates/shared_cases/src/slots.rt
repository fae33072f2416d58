//! What is done to cases under their numbers.
ghost use Rattle.std.specs.Prelude.{◌≡◌, ◌≢◌, ◌≤◌, ◌+◌, ◌↔◌, ◌&&◌, not, true, false, ℕ, IsTrue, OnOk, OnErr};
ghost use Rattle.shared_cases.specs.Cases.{at, has_differed, marked_now, same_verdict, verdict_or, Rewrites, IsSameCase, IsStoredAs};
ghost use Rattle.shared_cases.specs.Differed.{HasDiffered};
ghost use Rattle.shared_cases.specs.Grounds.{lent, IsRightCase};
ghost use Rattle.shared_cases.specs.Numbers.{has};
ghost use Rattle.shared_cases.specs.Owning.{owned, says_own};
ghost use Rattle.shared_cases.specs.Taking.{is_shared, lowered_by, raised, users_or};
ghost use Rattle.shared_cases.specs.Totals.{one_user, share_of, some_users, users_of};

use crate::case::StoredCase;
use crate::found::FoundCases;
use crate::grounds::Grounds;
use crate::numbers::CaseNumbers;
use crate::totals::Totals;
use av_base::{NoMemory, Steps};
use path_model::{Table, Trail, Verdict};
use ramps::judge;
use slab::Slab;
use std::sync::ledger::Ledger;

// Whether the number is that of the case of this AS and path.
pub(crate) fn is_stored_as(slab: &Slab<StoredCase>, number: usize, asn: u32, trail: &Trail) -> bool
    ensures { IsTrue result ↔ IsStoredAs (at slab.now.slots number) asn trail.now }
{
    match slab.get(number) {
        None => false,
        Some(case) => case.asn == asn && is_same_trail(&case.trail, trail),
    }
}

// Whether two paths are the same.
fn is_same_trail(one: &Trail, other: &Trail) -> bool
    ensures { IsTrue result ↔ (one.now ≡ other.now) }
{
    one.is_set() == other.is_set() && one.chain().as_slice() == other.chain().as_slice()
}

// One of its routes, by its verdict; none where there is no case.
pub(crate) fn one_user(slab: &Slab<StoredCase>, number: usize) -> Totals
    ensures { result ≡ one_user (at slab.now.slots number) }
{
    match slab.get(number) {
        None => Totals::none(),
        Some(case) => Totals::of(case.judged.verdict(), 1),
    }
}

// One user more.
pub(crate) fn raise(slab: &mut Slab<StoredCase>, number: usize) -> Result<(), NoMemory>
    ensures raised { OnOk result
        (Rewrites slab.old.slots slab.new.slots number (raised (at slab.old.slots number))) }
    ensures same { OnErr result (slab.new.slots ≡ slab.old.slots) }
{
    let Some(case) = slab.get_mut(number) else {
        return Ok(());
    };
    case.users = case.users.checked_add(1).ok_or(NoMemory)?;
    Ok(())
}

// Whether the case has another user beside one.
pub(crate) fn is_shared(slab: &Slab<StoredCase>, number: usize) -> bool
    ensures { result ≡ is_shared (at slab.now.slots number) }
{
    match slab.get(number) {
        None => false,
        Some(case) => case.users > 1,
    }
}

// How many users it has; none where there is no case.
#[inline(always)]
pub(crate) fn users(slab: &Slab<StoredCase>, number: usize) -> u32
    ensures { result ≡ users_or (at slab.now.slots number) }
{
    match slab.get(number) {
        None => 0,
        Some(case) => case.users,
    }
}

// So many users less, where there are as many. They are answered, by the verdict of the case.
#[inline(always)]
pub(crate) fn lower_by(slab: &mut Slab<StoredCase>, number: usize, count: u32) -> Totals
    ensures lowered { Rewrites slab.old.slots slab.new.slots number
        (lowered_by count (at slab.old.slots number)) }
    ensures less { result ≡ some_users count (at slab.old.slots number) }
{
    let Some(case) = slab.get_mut(number) else {
        return Totals::none();
    };
    case.users = case.users.saturating_sub(count);
    Totals::of(case.judged.verdict(), count)
}

// Its verdict becomes the marked one, and it hasn't differed.
pub(crate) fn mark(slab: &mut Slab<StoredCase>, number: usize)
    ensures { Rewrites slab.old.slots slab.new.slots number (marked_now (at slab.old.slots number)) }
{
    let Some(case) = slab.get_mut(number) else {
        return;
    };
    case.marked = case.judged.verdict();
    case.differed = false;
}

// The verdicts of these cases become the marked ones.
pub(crate) fn mark_all(slab: &mut Slab<StoredCase>, differed: &FoundCases)
    ensures marked { (n : ℕ) → has differed.now n ≡ true
        → at slab.new.slots n ≡ marked_now (at slab.old.slots n) }
    ensures others { (n : ℕ) → has differed.now n ≡ false
        → at slab.new.slots n ≡ at slab.old.slots n }
{
    for number in differed.as_slice() {
        mark(slab, *number as usize);
    }
}

// It says from now on that its AS has a role of its own.
pub(crate) fn set_own(slab: &mut Slab<StoredCase>, number: usize)
    ensures { Rewrites slab.old.slots slab.new.slots number (owned (at slab.old.slots number)) }
{
    let Some(case) = slab.get_mut(number) else {
        return;
    };
    case.own = true;
}

// These cases say so from now on.
pub(crate) fn set_all_own(slab: &mut Slab<StoredCase>, numbers: &CaseNumbers)
    ensures owned { (n : ℕ) → has numbers.now n ≡ true
        → at slab.new.slots n ≡ owned (at slab.old.slots n) }
    ensures others { (n : ℕ) → has numbers.now n ≡ false
        → at slab.new.slots n ≡ at slab.old.slots n }
{
    for number in numbers.iter() {
        set_own(slab, number);
    }
}

// What is known of a case that was judged anew.
#[derive(Drop)]
pub(crate) struct Anew {
    // its verdict before, and its verdict from now on; `Invalid` where there is no case
    pub(crate) before: Verdict,
    pub(crate) after: Verdict,
    // how many routes have it
    pub(crate) users: u32,
    // whether it differs from now on and hadn't before
    pub(crate) newly: bool,
}

// It is judged anew.
pub(crate) fn judge_anew<T: Table, L: Ledger>(
    slab: &mut Slab<StoredCase>,
    number: usize,
    on: &Grounds<'_, T>,
    steps: &mut Steps<L>,
) -> Anew
    ensures judged { IsRightCase (lent T.rows on.now) (at slab.new.slots number) }
    ensures same { IsSameCase (at slab.old.slots number) (at slab.new.slots number) }
    ensures own { says_own (at slab.new.slots number) ≡ says_own (at slab.old.slots number) }
    ensures differed { HasDiffered (at slab.old.slots number) (at slab.new.slots number) }
    ensures before { share_of (at slab.old.slots number) ≡ users_of result.before result.users }
    ensures after { share_of (at slab.new.slots number) ≡ users_of result.after result.users }
    ensures verdict { result.after ≡ verdict_or (at slab.new.slots number) }
    ensures newly { result.newly ≡ (has_differed (at slab.new.slots number)
        && not (has_differed (at slab.old.slots number))) }
    ensures others { (n : ℕ) → n ≢ number → at slab.new.slots n ≡ at slab.old.slots n }
    ensures ticks { steps.new ≤ steps.old + 1 }
{
    let Some(case) = slab.get_mut(number) else {
        return Anew {
            before: Verdict::Invalid,
            after: Verdict::Invalid,
            users: 0,
            newly: false,
        };
    };
    let before = case.judged.verdict();
    case.judged = judge(
        on.table,
        on.roles.of(case.asn),
        case.asn,
        &case.trail,
        steps,
    );
    let after = case.judged.verdict();
    let users = case.users;
    if case.differed {
        return Anew {
            before,
            after,
            users,
            newly: false,
        };
    }
    case.differed = !is_same_verdict(case.marked, after);
    Anew {
        before,
        after,
        users,
        newly: case.differed,
    }
}

// Whether two verdicts are the same.
fn is_same_verdict(one: Verdict, other: Verdict) -> bool
    ensures { result ≡ same_verdict one other }
{
    one == other
}
