//! What verdicts the cases have.
ghost use Rattle.std.specs.Prelude.{◌≡◌, ◌≤◌, [], length, OnOk};
ghost use Rattle.path_model.specs.declared.verdict.Verdict.TheVariants.{Invalid};
ghost use Rattle.shared_cases.specs.Cases.{at, marked_or, verdict_or};
ghost use Rattle.shared_cases.specs.Totals.{totals_of};
ghost use Rattle.shared_cases.specs.Verdicts.{verdict_at, SetsVerdict};

use crate::{SharedCases, Totals};
use av_base::NoMemory;
use path_model::Verdict;
use std::alloc::Global;
use std::marker::Model;
use std::vec::Vec;

// The verdict of each case under its number, beside the slab: who asks for verdicts alone reads a byte for each and no case. They take one
// to two bytes for each number.
#[derive(Drop)]
pub(crate) struct Verdicts {
    verdicts: Vec<Verdict>,
}

impl Model for Verdicts {
    ghost use Rattle.std.specs.Prelude.{List};
    ghost use Rattle.path_model.specs.declared.verdict.Verdict.{Verdict};

    ghost Value = { List Verdict };

    ghost view = { λ a. a.verdicts.items };
}

impl Verdicts {
    // None. It takes no memory.
    pub(crate) fn new(alloc: Global) -> Verdicts
        ensures { result ≡ [] }
    {
        Verdicts {
            verdicts: Vec::new(alloc),
        }
    }

    // The one under a number, or `Invalid` where there is none.
    #[inline(always)]
    pub(crate) fn of(&self, number: usize) -> Verdict
        ensures { result ≡ verdict_at self.now number }
    {
        match self.verdicts.get(number) {
            None => Verdict::Invalid,
            Some(verdict) => *verdict,
        }
    }

    // A number has this one from now on. Memory is taken only for a number behind the last one.
    #[inline(always)]
    pub(crate) fn set(&mut self, number: usize, verdict: Verdict) -> Result<(), NoMemory>
        ensures { OnOk result (SetsVerdict self.old self.new number verdict) }
    {
        if number < self.verdicts.len() {
            self.verdicts[number] = verdict;
            return Ok(());
        }
        self.append(number, verdict)
    }

    // The same of a number behind the last one: those between them, if there are some, have none.
    fn append(&mut self, number: usize, verdict: Verdict) -> Result<(), NoMemory>
        requires { length self.old ≤ number }
        ensures { OnOk result (SetsVerdict self.old self.new number verdict) }
    {
        if number > self.verdicts.len() {
            self.verdicts.resize(number, Verdict::Invalid)?;
        }
        self.verdicts.push(verdict)?;
        Ok(())
    }

    // A number has none from now on. It takes no memory.
    pub(crate) fn clear(&mut self, number: usize)
        ensures { SetsVerdict self.old self.new number Invalid }
    {
        if number < self.verdicts.len() {
            self.verdicts[number] = Verdict::Invalid;
        }
    }
}

impl SharedCases {
    /// The verdict of a case, or `Invalid` where there is no case.
    #[inline(always)]
    pub fn verdict(&self, number: usize) -> Verdict
        ensures { result ≡ verdict_or (at self.now number) }
    {
        self.kept.verdicts.of(number)
    }

    /// The verdict of a case at the last mark or when it came, or `Invalid` where there is no case.
    pub fn marked(&self, number: usize) -> Verdict
        ensures { result ≡ marked_or (at self.now number) }
    {
        match self.slab.get(number) {
            None => Verdict::Invalid,
            Some(case) => case.marked,
        }
    }

    /// How many routes have cases with each verdict. No case is visited.
    pub fn totals(&self) -> Totals
        ensures { result ≡ totals_of self.now }
    {
        self.kept.totals
    }
}
