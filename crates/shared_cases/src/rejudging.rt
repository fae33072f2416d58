//! Cases judged anew, where another table or other roles touch them.
ghost use Rattle.std.specs.Prelude.{◌≡◌, ◌≤◌, ◌+◌, ◌-◌, ℕ, true, false, nat_eq, ◌||◌, ◌&&◌, length, IfOk, OnOk};
ghost use Rattle.std.specs.List.Sorted.{IsStrictlySortedBy};
ghost use Rattle.std.specs.Ordering.{nat_cmp};
ghost use Rattle.path_model.specs.Authority.{Table as AnyTable};
ghost use Rattle.path_model.specs.Roles.{Relations};
ghost use Rattle.attestations.specs.Moves.{AreMoves};
ghost use Rattle.shared_cases.specs.Cases.{at, AreSameCases};
ghost use Rattle.shared_cases.specs.Differed.{HasDiffered, HaveDiffered, AreNewlyDiffering};
ghost use Rattle.shared_cases.specs.Grounds.{lent, with_default, with_roles, with_table, IsJudged, IsRightCase};
ghost use Rattle.shared_cases.specs.Kept.{AreOnlyRejudged};
ghost use Rattle.shared_cases.specs.Numbers.{has};
ghost use Rattle.shared_cases.specs.Owning.{owned_of, SayTheSame};
ghost use Rattle.shared_cases.specs.Totals.{totals_of};
ghost use Rattle.shared_cases.specs.Touched.{AreWithinTouched, IsRoleMove};
ghost use Rattle.shared_cases.specs.Verdicts.{AreVerdictsOf};

use crate::case::StoredCase;
use crate::found::FoundCases;
use crate::grounds::Grounds;
use crate::kept::Kept;
use crate::slots::{judge_anew, set_all_own};
use crate::totals::Totals;
use crate::touched::{touched_by_default, touched_by_moves, touched_by_role};
use crate::{SharedCases, ahead};
use attestations::Moves;
use av_base::{NoMemory, Steps};
use path_model::{Role, Table};
use slab::Slab;
use std::alloc::Global;
use std::sync::ledger::Ledger;

impl SharedCases {
    /// The table is another one from now on, by these moves. It judges anew, once each, the cases with a hop of which something else is
    /// attested. It takes the time of a look-up for each move; where its customer has hops, also of a walk over its rows, and of a look-up for
    /// each AS that is in one row alone or, where its hops are fewer or there is one row only, for each of its neighbours; and of the cases
    /// judged. The first time that something moves beside cases it lists their hops ([`SharedCases::list_hops`]). Answered are the cases, and
    /// the numbers of those that get another verdict than the marked one for the first time since the last mark, or since they came.
    pub fn follow_table<T: Table, L: Ledger>(
        self,
        moves: &Moves,
        on: &Grounds<'_, T>,
        steps: &mut Steps<L>,
    ) -> Result<(SharedCases, FoundCases), NoMemory>
        ensures same { IfOk result (λ r. AreSameCases self r.0) }
        ensures judged { IfOk result (λ r. (before : AnyTable)
            → AreMoves before (T.rows on.now.table.now) moves.now
            → (n : ℕ) → IsJudged (with_table before (lent T.rows on.now)) (at self n)
            → IsJudged (lent T.rows on.now) (at r.0 n)) }
        ensures differed { IfOk result (λ r. HaveDiffered self r.0) }
        ensures newly { IfOk result (λ r. AreNewlyDiffering self r.0 r.1) }
        ensures ticks { (before : AnyTable) → AreMoves before (T.rows on.now.table.now) moves.now
            → AreWithinTouched (with_table before (lent T.rows on.now)) (lent T.rows on.now) self
            (steps.new - steps.old) }
    {
        let mut cases = self;
        cases.list_for(moves)?;
        cases.follow_listed(moves, on, steps)
    }

    // The same, however the hops are held.
    fn follow_listed<T: Table, L: Ledger>(
        self,
        moves: &Moves,
        on: &Grounds<'_, T>,
        steps: &mut Steps<L>,
    ) -> Result<(SharedCases, FoundCases), NoMemory>
        ensures same { IfOk result (λ r. AreSameCases self r.0) }
        ensures judged { IfOk result (λ r. (before : AnyTable)
            → AreMoves before (T.rows on.now.table.now) moves.now
            → (n : ℕ) → IsJudged (with_table before (lent T.rows on.now)) (at self n)
            → IsJudged (lent T.rows on.now) (at r.0 n)) }
        ensures differed { IfOk result (λ r. HaveDiffered self r.0) }
        ensures newly { IfOk result (λ r. AreNewlyDiffering self r.0 r.1) }
        ensures ticks { (before : AnyTable) → AreMoves before (T.rows on.now.table.now) moves.now
            → AreWithinTouched (with_table before (lent T.rows on.now)) (lent T.rows on.now) self
            (steps.new - steps.old) }
    {
        let touched = touched_by_moves(self.alloc, &self.kept.index, moves)?;
        let (cases, newly) = self.rejudge(touched.as_slice(), on, steps)?;
        Ok((cases, newly))
    }

    /// The role of one AS, which was `before`, is that of these roles from now on, and is its own. Where these differ it judges anew, once each,
    /// the cases of that AS. It takes the time of two look-ups and of these cases, which it also goes over where the AS had no role of its
    /// own, and answers as [`SharedCases::follow_table`] does.
    pub fn follow_role<T: Table, L: Ledger>(
        self,
        asn: u32,
        before: Role,
        on: &Grounds<'_, T>,
        steps: &mut Steps<L>,
    ) -> Result<(SharedCases, FoundCases), NoMemory>
        ensures same { IfOk result (λ r. AreSameCases self r.0) }
        ensures judged { IfOk result (λ r. (old : Relations)
            → IsRoleMove asn before old on.now.roles.now
            → (n : ℕ) → IsJudged (with_roles old (lent T.rows on.now)) (at self n)
            → IsJudged (lent T.rows on.now) (at r.0 n)) }
        ensures differed { IfOk result (λ r. HaveDiffered self r.0) }
        ensures newly { IfOk result (λ r. AreNewlyDiffering self r.0 r.1) }
        ensures ticks { (old : Relations) → IsRoleMove asn before old on.now.roles.now
            → AreWithinTouched (with_roles old (lent T.rows on.now)) (lent T.rows on.now) self
            (steps.new - steps.old) }
    {
        let touched = touched_by_role(self.alloc, &self.kept.peers, asn, before, on.roles.of(asn))?;
        let mut cases = self;
        cases.set_own(asn);
        let (cases, newly) = cases.rejudge(touched.as_slice(), on, steps)?;
        Ok((cases, newly))
    }

    /// The default role, which was `before`, is that of these roles from now on. Where these differ it judges anew, once each, the cases of the
    /// ASes without a role of their own. It takes the time of two look-ups for each such AS that has cases, and of the cases judged; where the
    /// default is the same, none. It answers as [`SharedCases::follow_table`] does.
    pub fn follow_default<T: Table, L: Ledger>(
        self,
        before: Role,
        on: &Grounds<'_, T>,
        steps: &mut Steps<L>,
    ) -> Result<(SharedCases, FoundCases), NoMemory>
        ensures same { IfOk result (λ r. AreSameCases self r.0) }
        ensures judged { IfOk result (λ r. (n : ℕ)
            → IsJudged (with_default before (lent T.rows on.now)) (at self n)
            → IsJudged (lent T.rows on.now) (at r.0 n)) }
        ensures differed { IfOk result (λ r. HaveDiffered self r.0) }
        ensures newly { IfOk result (λ r. AreNewlyDiffering self r.0 r.1) }
        ensures ticks { AreWithinTouched (with_default before (lent T.rows on.now))
            (lent T.rows on.now) self (steps.new - steps.old) }
    {
        let touched = touched_by_default(self.alloc, &self.kept.peers, before, on.roles)?;
        let (cases, newly) = self.rejudge(touched.as_slice(), on, steps)?;
        Ok((cases, newly))
    }

    // The hops of the cases are listed from now on, where something moved.
    fn list_for(&mut self, moves: &Moves) -> Result<(), NoMemory>
        ensures { self.new ≡ self.old }
    {
        if moves.is_empty() {
            return Ok(());
        }
        self.list_hops()
    }

    // The AS has a role of its own, and each of its cases says so from now on. It takes the time of a look-up, and that of these cases where
    // some may not have said so.
    fn set_own(&mut self, asn: u32)
        ensures { (n : ℕ) → at self.new n ≡ owned_of asn (at self.old n) }
    {
        if !self.kept.peers.set_own(asn) {
            return;
        }
        match self.kept.peers.of(asn) {
            None => {}
            Some(numbers) => set_all_own(&mut self.slab, numbers),
        }
    }
}

// These cases are judged anew, and the answer is which of them differ from now on and hadn't before. The totals and the verdicts
// go along.
pub(crate) fn rejudge_all<T: Table, L: Ledger>(
    alloc: Global,
    slab: &mut Slab<StoredCase>,
    kept: &mut Kept,
    touched: &[u32],
    on: &Grounds<'_, T>,
    steps: &mut Steps<L>,
) -> Result<FoundCases, NoMemory>
    requires { IsStrictlySortedBy nat_cmp touched.now }
    ensures judged { OnOk result ((n : ℕ) → has touched.now n ≡ true
        → IsRightCase (lent T.rows on.now) (at slab.new.slots n)) }
    ensures others { OnOk result ((n : ℕ) → has touched.now n ≡ false
        → at slab.new.slots n ≡ at slab.old.slots n) }
    ensures same { OnOk result (AreSameCases slab.old.slots slab.new.slots) }
    ensures own { OnOk result (SayTheSame slab.old.slots slab.new.slots) }
    ensures differed { OnOk result ((n : ℕ) → has touched.now n ≡ true
        → HasDiffered (at slab.old.slots n) (at slab.new.slots n)) }
    ensures newly { IfOk result (λ newly.
        AreNewlyDiffering slab.old.slots slab.new.slots newly) }
    ensures kept { OnOk result (AreOnlyRejudged kept.old kept.new) }
    ensures counted { OnOk result (kept.old.totals ≡ totals_of slab.old.slots
        → kept.new.totals ≡ totals_of slab.new.slots) }
    ensures verdicts { OnOk result (AreVerdictsOf slab.old.slots kept.old.verdicts
        → AreVerdictsOf slab.new.slots kept.new.verdicts) }
    ensures ticks { steps.new ≤ steps.old + length touched.now }
{
    let mut newly = FoundCases::new(alloc);
    let mut at: usize = 0;
    // the place of the first one that isn't at hand
    let mut unread: usize = 0;
    for short in touched {
        if at == unread {
            unread = ahead::read_from(slab, touched, at);
        }
        at = at.wrapping_add(1);
        let number = *short as usize;
        let anew = judge_anew(slab, number, on, steps);
        let both = kept.totals.plus(Totals::of(anew.after, anew.users))?;
        kept.totals = both.minus(Totals::of(anew.before, anew.users));
        kept.verdicts.set(number, anew.after)?;
        tell(&mut newly, *short, anew.newly)?;
    }
    Ok(newly)
}

// A number comes to these, if its case differs.
fn tell(newly: &mut FoundCases, number: u32, differs: bool) -> Result<(), NoMemory>
    ensures { OnOk result ((n : ℕ)
        → has newly.new n ≡ (has newly.old n || (nat_eq n number && differs))) }
{
    if !differs {
        return Ok(());
    }
    newly.push(number)
}
