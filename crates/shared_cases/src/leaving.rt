//! Routes leave their cases, one or many at once.
ghost use Rattle.std.specs.Prelude.{◌≡◌, ◌≤◌, ◌-◌, ℕ, true, List, length, None, IfNone, IfSome, OnOk};
ghost use Rattle.hop_index.specs.Index.{AreGathered};
ghost use Rattle.shared_cases.specs.Cases.{at, Rewrites};
ghost use Rattle.shared_cases.specs.Kept.{staying, without_chain, AreSameHops, FitBy, FitTogether, Hops};
ghost use Rattle.shared_cases.specs.Taking.{is_shared, left, left_times, lowered, times, TakesOut};

use crate::case::StoredCase;
use crate::case_name::CaseName;
use crate::cases::start_anew;
use crate::kept::Kept;
use crate::totals::Totals;
use crate::{SharedCases, ahead, grouping, slots};
use av_base::NoMemory;
use hop_index::{GoneHops, HopIndex};
use path_model::Trail;
use slab::Slab;
use std::alloc::Global;
use std::vec::Vec;

// Where as many hops of cases that go are gathered, they are taken out of the index: more of them would hardly lie closer together.
const MANY: usize = 65536;

impl SharedCases {
    /// One route less has the case. The last one takes the case along. It takes no memory.
    #[inline(never)]
    pub fn leave(&mut self, number: u32)
        ensures { Rewrites self.old self.new number (left (at self.old number)) }
    {
        if slots::is_shared(&self.slab, number as usize) {
            self.lower(number);
        } else {
            self.remove(number);
        }
    }

    /// Routes leave these cases, one for each time that a number stands in the list. The last one takes a case along, and where there is no
    /// case nothing changes. Equal numbers are brought together, so that each case is visited once, and the hops of cases that go are taken out
    /// of the index in the order of the hops, where they are listed, some 65,536 at a time: where many routes leave, this costs far less than
    /// [`SharedCases::leave`] for each. The numbers are counted, with as much room again and 2 bytes for each number of a case up to the
    /// greatest one, as long as these are at most 16 for each route and less than 65,536 routes have one of the cases. Else they are sorted,
    /// with half as much room again (without that memory they are taken as they stand). The hops take 12 bytes each, two or three times that
    /// while they grow or are sorted. Where there was no memory for hops, nothing is promised of the cases but that they fit together.
    #[inline(never)]
    pub fn leave_all(&mut self, numbers: Vec<u32>) -> Result<(), NoMemory>
        ensures { OnOk result ((n : ℕ)
            → at self.new n ≡ left_times (times n numbers.items) (at self.old n)) }
    {
        let numbers = grouping::grouped(self.alloc, numbers);
        match leave_each(
            self.alloc,
            &mut self.slab,
            &mut self.kept,
            numbers.as_slice(),
        ) {
            Ok(()) => Ok(()),
            Err(_) => {
                start_anew(self.alloc, &mut self.slab, &mut self.kept);
                Err(NoMemory)
            }
        }
    }

    // One user less of a case that has more than one.
    fn lower(&mut self, number: u32)
        requires { is_shared (at self.old number) ≡ true }
        ensures { Rewrites self.old self.new number (lowered (at self.old number)) }
    {
        let one = slots::lower_by(&mut self.slab, number as usize, 1);
        self.kept.totals = self.kept.totals.minus(one);
    }

    // The case goes, if there is one, with its name and its hops.
    fn remove(&mut self, number: u32)
        ensures { Rewrites self.old self.new number None }
    {
        let Some(trail) = take_out(&mut self.slab, &mut self.kept, number) else {
            return;
        };
        self.kept.index.forget(number as usize, trail.chain());
    }
}

// Routes leave these cases, from the end of the list on, and those of one case that stand beside each other at once.
fn leave_each(
    alloc: Global,
    slab: &mut Slab<StoredCase>,
    kept: &mut Kept,
    numbers: &[u32],
) -> Result<(), NoMemory>
    requires { FitTogether slab.old.slots kept.old }
    ensures fit { OnOk result (FitTogether slab.new.slots kept.new) }
    ensures left { OnOk result ((n : ℕ)
        → at slab.new.slots n ≡ left_times (times n numbers.now) (at slab.old.slots n)) }
{
    let mut gone = GoneHops::new(alloc);
    let mut left = numbers;
    // how many cases are at hand
    let mut read: usize = 0;
    while let Some((number, front)) = left.split_last() {
        if read == 0 {
            read = ahead::read_last(slab, &kept.names, left);
        }
        read = read.wrapping_sub(1);
        let rest = ahead_of(front, *number);
        let count = left.len() - rest.len();
        leave_many(slab, kept, &mut gone, *number, count)?;
        gone = settled(alloc, &mut kept.index, gone);
        left = rest;
    }
    kept.index.remove_each(gone);
    Ok(())
}

// What stands ahead of the last numbers of a list, each of which is this one.
fn ahead_of(list: &[u32], number: u32) -> &[u32]
    ensures ahead { TakesOut list.now number (length list.now - length result.now) result.now }
    ensures fewer { length result.now ≤ length list.now }
{
    let mut left = list;
    while let Some((last, front)) = left.split_last() {
        if *last != number {
            return left;
        }
        left = front;
    }
    left
}

// So many routes leave a case. The hops of a case that goes go too, or come to those that go.
fn leave_many(
    slab: &mut Slab<StoredCase>,
    kept: &mut Kept,
    gone: &mut GoneHops,
    number: u32,
    count: usize,
) -> Result<(), NoMemory>
    requires some { 1 ≤ count }
    requires fit { FitBy (staying kept.old.index gone.old) slab.old.slots kept.old }
    requires gathered { AreGathered kept.old.index gone.old }
    ensures fit { OnOk result
        (FitBy (staying kept.new.index gone.new) slab.new.slots kept.new) }
    ensures gathered { OnOk result (AreGathered kept.new.index gone.new) }
    ensures left { OnOk result (Rewrites slab.old.slots slab.new.slots number
        (left_times count (at slab.old.slots number))) }
{
    if slots::users(slab, number as usize) as usize > count {
        let less = slots::lower_by(slab, number as usize, count as u32);
        kept.totals = kept.totals.minus(less);
        return Ok(());
    }
    if let Some(trail) = take_out(slab, kept, number) {
        kept.index.let_go(number as usize, trail.chain(), gone)?;
    }
    Ok(())
}

// The case goes, if there is one, with its name; its path is answered, and its hops have to go as well.
#[inline(always)]
fn take_out(slab: &mut Slab<StoredCase>, kept: &mut Kept, number: u32) -> Option<Trail>
    ensures fit { IfSome result (λ trail. (hops : Hops) → FitBy hops slab.old.slots kept.old
        → FitBy (without_chain hops number trail.chain) slab.new.slots kept.new) }
    ensures none { IfNone result ((hops : Hops) → FitBy hops slab.old.slots kept.old
        → FitBy hops slab.new.slots kept.new) }
    ensures index { kept.new.index ≡ kept.old.index }
    ensures gone { Rewrites slab.old.slots slab.new.slots number None }
{
    let Some(case) = slab.try_remove(number as usize) else {
        return None;
    };
    kept.totals = kept
        .totals
        .minus(Totals::of(case.judged.verdict(), case.users));
    kept.verdicts.clear(number as usize);
    kept.peers.remove(case.asn, number);
    let name = CaseName::new(case.asn, case.trail);
    kept.names.remove(&name, number);
    Some(name.trail)
}

// The hops that go are taken out of the index where there are many: answered are those that are left to go.
#[inline(always)]
fn settled(alloc: Global, index: &mut HopIndex, gone: GoneHops) -> GoneHops
    requires { AreGathered index.old gone }
    ensures same { AreSameHops (staying index.old gone) (staying index.new result) }
    ensures gathered { AreGathered index.new result }
{
    if gone.len() < MANY {
        return gone;
    }
    index.remove_each(gone);
    GoneHops::new(alloc)
}
