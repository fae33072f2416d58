//! The cases.
ghost use Rattle.std.specs.Prelude.{◌≡◌, ◌≤◌, ◌+◌, ℕ, true, false, [], length, None, Some, IfOk, IfNone, IfSome, OnOk};
ghost use Rattle.std.specs.List.Sorted.{IsStrictlySortedBy};
ghost use Rattle.std.specs.Ordering.{nat_cmp};
ghost use Rattle.shared_cases.specs.Cases.{at, marked_now, AreSameCases, Rewrites, IsAbsent, IsStoredAs, AreDistinct, IsIndexOf, IsShown};
ghost use Rattle.shared_cases.specs.Differed.{AreNewlyDiffering, AreSettledOrDiffered, HaveDiffered};
ghost use Rattle.shared_cases.specs.Grounds.{lent, IsRightCase};
ghost use Rattle.shared_cases.specs.Kept.{FitTogether};
ghost use Rattle.shared_cases.specs.Names.{name_of};
ghost use Rattle.shared_cases.specs.Numbers.{has};
ghost use Rattle.shared_cases.specs.Owning.{SayTheSame};
ghost use Rattle.shared_cases.specs.Taking.{raised, new_case, Takes};

use crate::case::{Case, StoredCase, new_case};
use crate::case_name::CaseName;
use crate::found::FoundCases;
use crate::grounds::Grounds;
use crate::kept::Kept;
use crate::rejudging::rejudge_all;
use crate::slots;
use crate::totals::Totals;
use av_base::{NoMemory, Steps};
use hop_index::HopIndex;
use path_model::{Table, Trail};
use ramps::{Judged, judge};
use slab::Slab;
use std::alloc::Global;
use std::marker::Model;
use std::sync::ledger::Ledger;

/// The cases that routes share, each under a number below 2^32 for as long as some route has it. A case takes 111 to 152 bytes, 4 more for
/// each AS of its path where that has more than seven, and what its chain or its hops take in the index ([`HopIndex`]); one that got another
/// verdict since the last mark, 4 to 16 bytes more; and an AS some 60, and 4 to 9 more where it has no role of its own. Room for names stays
/// once it was taken.
pub struct SharedCases {
    pub(crate) alloc: Global,
    pub(crate) slab: Slab<StoredCase>,
    pub(crate) kept: Kept,
}

/// Written by hand and not derived: a check of a function that lets the cases go then has one call there, and not each field.
impl Drop for SharedCases {
    fn drop(self) {
        let SharedCases {
            alloc: _alloc,
            slab: _slab,
            kept: _kept,
        } = self;
    }
}

impl Model for SharedCases {
    ghost use Rattle.shared_cases.specs.Cases.{Slots};
    ghost use Rattle.shared_cases.specs.Kept.{FitTogether};

    ghost Value = { Slots };

    ghost view = { λ a. a.slab.slots };

    ghost invariant = { λ a. FitTogether a.slab.slots a.kept };
}

impl SharedCases {
    /// No cases. It takes no memory.
    pub fn new(alloc: Global) -> SharedCases
        ensures { result ≡ [] }
    {
        SharedCases {
            alloc,
            slab: Slab::new(alloc),
            kept: Kept::new(alloc),
        }
    }

    /// The case under a number; `None` exactly where there is none.
    pub fn get(&self, number: usize) -> Option<Case<'_>>
        ensures { IsShown result (at self.now number) }
    {
        let case = self.slab.get(number)?;
        Some(Case::of(case))
    }

    /// The hops of the cases.
    pub fn index(&self) -> &HopIndex
        ensures { IsIndexOf self.now result.now }
    {
        &self.kept.index
    }

    /// The hops of the cases are listed from now on, where some case ever came ([`HopIndex::list`]): a change of the table asks for them. Where
    /// that was so it takes no time.
    pub fn list_hops(&mut self) -> Result<(), NoMemory>
        ensures { self.new ≡ self.old }
    {
        if self.kept.index.has_no_case_yet() {
            return Ok(());
        }
        self.kept.index.list()
    }

    /// No two cases have the same peer AS and path: a law, and the body does nothing.
    pub fn are_distinct(&self)
        ensures { AreDistinct self.now }
    {
        let _kept = &self.kept;
    }

    /// Each case that hasn't got another verdict since the last mark, or since it came, has its marked verdict: a law, and the body does
    /// nothing.
    pub fn are_settled(&self)
        ensures { AreSettledOrDiffered self.now }
    {
        let _kept = &self.kept;
    }

    /// One route more has the case of this AS and path, and the number of the case, which stays until its last route leaves it. It is looked
    /// for under the hint first, which may be any number ([`SharedCases::hint`]). A new case is judged, for one step, and its verdict is the
    /// marked one. For 2^32 routes of one case there is no memory. Where there was none, nothing is promised of the cases but that they fit
    /// together.
    pub fn take<T: Table, L: Ledger>(
        &mut self,
        asn: u32,
        trail: &Trail,
        hint: Option<u32>,
        on: &Grounds<'_, T>,
        steps: &mut Steps<L>,
    ) -> Result<u32, NoMemory>
        ensures taken { IfOk result (λ n.
            Takes (lent T.rows on.now) asn trail.now self.old self.new n) }
        ensures ticks { steps.new ≤ steps.old + 1 }
    {
        if let Some(number) = self.hinted(hint, asn, trail) {
            self.take_again(number)?;
            return Ok(number);
        }
        let name = CaseName::new(asn, trail.copy()?);
        if let Some(number) = self.find(&name) {
            self.take_again(number)?;
            return Ok(number);
        }
        self.take_new(name, on, steps)
    }

    /// One route more has the case under a number that some route has already, as where [`SharedCases::take`] has just given it: no path is
    /// read. Where there is no case nothing changes. For 2^32 routes of one case there is no memory.
    pub fn take_again(&mut self, number: u32) -> Result<(), NoMemory>
        ensures { OnOk result (Rewrites self.old self.new number (raised (at self.old number))) }
    {
        let totals = self
            .kept
            .totals
            .plus(slots::one_user(&self.slab, number as usize))?;
        slots::raise(&mut self.slab, number as usize)?;
        self.kept.totals = totals;
        Ok(())
    }

    /// The present verdicts are the marked ones from now on. It takes no memory, and the time of the cases that got another verdict since the
    /// last one.
    pub fn mark(self) -> SharedCases
        ensures { (n : ℕ) → at result n ≡ marked_now (at self n) }
    {
        let SharedCases {
            alloc,
            mut slab,
            mut kept,
        } = self;
        slots::mark_all(&mut slab, &kept.differed);
        kept.differed = FoundCases::new(alloc);
        SharedCases { alloc, slab, kept }
    }

    // These cases are judged anew, once each.
    pub(crate) fn rejudge<T: Table, L: Ledger>(
        self,
        touched: &[u32],
        on: &Grounds<'_, T>,
        steps: &mut Steps<L>,
    ) -> Result<(SharedCases, FoundCases), NoMemory>
        requires { IsStrictlySortedBy nat_cmp touched.now }
        ensures judged { IfOk result (λ r. (n : ℕ) → has touched.now n ≡ true
            → IsRightCase (lent T.rows on.now) (at r.0 n)) }
        ensures others { IfOk result (λ r. (n : ℕ) → has touched.now n ≡ false
            → at r.0 n ≡ at self n) }
        ensures same { IfOk result (λ r. AreSameCases self r.0) }
        ensures own { IfOk result (λ r. SayTheSame self r.0) }
        ensures differed { IfOk result (λ r. HaveDiffered self r.0) }
        ensures newly { IfOk result (λ r. AreNewlyDiffering self r.0 r.1) }
        ensures ticks { steps.new ≤ steps.old + length touched.now }
    {
        let SharedCases {
            alloc,
            mut slab,
            mut kept,
        } = self;
        let newly = rejudge_all(alloc, &mut slab, &mut kept, touched, on, steps)?;
        kept.differed.append(&newly)?;
        let cases = SharedCases { alloc, slab, kept };
        Ok((cases, newly))
    }

    // The number of the case of this name.
    fn find(&self, name: &CaseName) -> Option<u32>
        requires { name.now ≡ name_of name.now.asn name.now.trail }
        ensures some { IfSome result (λ n. IsStoredAs (at self.now n) name.now.asn name.now.trail) }
        ensures none { IfNone result (IsAbsent self.now name.now.asn name.now.trail) }
    {
        self.kept.names.find(&self.slab, name)
    }

    // One route has a new case, of this name. It isn't inlined, so that where the case is there the stack slots of the whole state aren't
    // cleared.
    #[inline(never)]
    fn take_new<T: Table, L: Ledger>(
        &mut self,
        name: CaseName,
        on: &Grounds<'_, T>,
        steps: &mut Steps<L>,
    ) -> Result<u32, NoMemory>
        requires named { name ≡ name_of name.asn name.trail }
        requires absent { IsAbsent self.old name.asn name.trail }
        ensures taken { IfOk result (λ n.
            Takes (lent T.rows on.now) name.asn name.trail self.old self.new n) }
        ensures ticks { steps.new ≤ steps.old + 1 }
    {
        let asn = name.asn;
        let judged = judge(on.table, on.roles.of(asn), asn, &name.trail, steps);
        let number = self.add(name, judged, on.roles.has_own(asn))?;
        Ok(number)
    }

    // A new case. Where there was no memory, no case is left.
    fn add(&mut self, name: CaseName, judged: Judged, own: bool) -> Result<u32, NoMemory>
        requires named { name ≡ name_of name.asn name.trail }
        requires absent { IsAbsent self.old name.asn name.trail }
        ensures vacant { IfOk result (λ n. at self.old n ≡ None) }
        ensures added { IfOk result (λ n.
            Rewrites self.old self.new n (Some (new_case name.asn name.trail judged own))) }
    {
        let verdict = judged.verdict();
        let totals = self.kept.totals.plus(Totals::of(verdict, 1))?;
        let case = new_case(&name, judged, own)?;
        let number = self.slab.insert(case)?;
        match self.kept.add(name, number, verdict, own) {
            Ok(short) => {
                self.kept.totals = totals;
                Ok(short)
            }
            Err(_) => {
                start_anew(self.alloc, &mut self.slab, &mut self.kept);
                Err(NoMemory)
            }
        }
    }
}

// No case is left.
#[inline(never)]
pub(crate) fn start_anew(alloc: Global, slab: &mut Slab<StoredCase>, kept: &mut Kept)
    ensures { FitTogether slab.new.slots kept.new }
{
    *slab = Slab::new(alloc);
    *kept = Kept::new(alloc);
}
