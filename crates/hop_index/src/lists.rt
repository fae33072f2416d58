//! The cases of each hop, and the neighbours of each AS: the hops of cases in lists.
ghost use Rattle.std.specs.Prelude.{◌≡◌, ◌<◌, ◌^◌, ℕ, true, OnOk};
ghost use Rattle.std.specs.List.Sorted.{IsStrictlySortedBy};
ghost use Rattle.std.specs.Ordering.{nat_cmp};
ghost use Rattle.hop_index.specs.Lists.{has, SomeCaseHas, HasNothing, Adds, Removes};
ghost use Rattle.hop_index.specs.Kept.{AddsHop, RemovesHop, RemovesEach, AreKept};
ghost use Rattle.hop_index.specs.Numbers.{has_number, numbers_or, Appends};
ghost use Rattle.hop_index.specs.Ends.{end_cmp, has_end, listed_ends};

use crate::gone::{GoneHop, GoneHops};
use crate::hops::Hops;
use crate::listed_through::ListedThrough;
use crate::number_iter::NumberIter;
use crate::numbers::Numbers;
use crate::pair::Pair;
use crate::{ahead, neighbours};
use av_base::NoMemory;
use std::alloc::Global;
use std::collections::BTreeMap;
use std::marker::Model;

// Which cases have a hop between two ASes, of cases under numbers below 2^32. Each hop of a case is held once, under its two ASes. The
// first case of a hop takes 24 to 48 bytes, the hop in a list, and 19 to 39 more, its place by the two ASes; the first hop of an AS takes
// 20 to 50 more. The second and third case of a hop take nothing, and neither do the second and third neighbour of an AS; a fourth takes
// 40, a list of them whose room doubles when it is full. More than 512 stand in chunks, 4 bytes each where they come in order and up to 16
// else, and some 2300 more. What no case needs is given back, a list of numbers only with the last of them; the room for hops and their
// places stays, and further hops take it.
pub(crate) struct HopLists {
    alloc: Global,
    // the neighbours of each AS, as the hops have them: an AS without hops has no entry
    ends: BTreeMap<u32, Numbers>,
    // the cases of each hop, of which there is one at least
    hops: Hops,
}

// Written by hand and not derived: a check of a function that lets the lists go then has one call there, and not each field.
impl Drop for HopLists {
    fn drop(self) {
        let HopLists {
            alloc: _alloc,
            ends: _ends,
            hops: _hops,
        } = self;
    }
}

impl Model for HopLists {
    ghost use Rattle.hop_index.specs.Lists.{Lists};
    ghost use Rattle.hop_index.specs.Kept.{AreKept};

    ghost Value = { Lists };

    ghost view = { λ a. a.hops };

    ghost invariant = { λ a. AreKept a.ends.entries a.hops };
}

impl HopLists {
    // No hops. It takes no memory.
    pub(crate) fn new(alloc: Global) -> HopLists
        ensures { HasNothing result }
    {
        HopLists {
            alloc,
            ends: BTreeMap::new(alloc),
            hops: Hops::new(alloc),
        }
    }

    // The hops of a case come in: those between each two neighbours of its chain, in both orders. What there was before of this case stays.
    // For a number of 2^32 or above there is no memory. Where there was none, nothing is promised of the hops. Each hop takes one look-up,
    // and three to six more where it is new.
    pub(crate) fn add(&mut self, case: usize, chain: &[u32]) -> Result<(), NoMemory>
        ensures { OnOk result (Adds self.old case chain.now self.new) }
    {
        let Ok(number) = u32::try_from(case) else {
            return Err(NoMemory);
        };
        let alloc = self.alloc;
        let added = insert_all(&mut self.ends, &mut self.hops, alloc, chain, number);
        if added.is_err() {
            self.ends = BTreeMap::new(alloc);
            self.hops = Hops::new(alloc);
        }
        added
    }

    // The hops of a case between each two neighbours of a chain go, in either order. Hops that weren't there, and those of other cases, make
    // no difference. It takes no memory. Each hop takes one look-up, and up to seven more with its last case.
    pub(crate) fn remove(&mut self, case: usize, chain: &[u32])
        ensures { Removes self.old case chain.now self.new }
    {
        let Ok(number) = u32::try_from(case) else {
            self.are_few();
            return;
        };
        remove_all(&mut self.ends, &mut self.hops, chain, number);
    }

    // The hops of many cases go, in either order. Hops that weren't there, and those of other cases, make no difference. It costs the time of
    // sorting them, and of each what [`HopLists::remove`] costs; but those between the same two ASes go one after another, in the order in
    // which they were pushed, and up to 64 hops are read ahead, so that memory is waited for less often. While they are sorted they take 12
    // bytes each more; where there is no memory for that, they go in the order in which they were pushed.
    pub(crate) fn remove_each(&mut self, gone: GoneHops)
        ensures { RemovesEach self.old gone self.new }
    {
        let hops = gone.into_sorted();
        remove_gone(&mut self.ends, &mut self.hops, hops.as_slice());
    }

    // No case has a number of 2^32 or above: a law, and the body does nothing.
    fn are_few(&self)
        ensures { (x y n : ℕ) → has self.now x y n ≡ true → n < 2 ^ 32 }
    {
        let _hops = &self.hops;
    }

    // Each y and case with a hop between `x` and y, in either direction: by rising y and then by rising case, each pair once. It takes
    // no memory, and the time of a look-up, of another one for each y, and of what it gives.
    pub(crate) fn through(&self, x: u32) -> ListedThrough<'_>
        ensures exact { (y n : ℕ) → has_end (listed_ends result) y n ≡ has self.now x y n }
        ensures rising { IsStrictlySortedBy end_cmp (listed_ends result) }
    {
        ListedThrough {
            hops: &self.hops,
            x,
            neighbours: neighbours::of(&self.ends, x),
            y: 0,
            cases: None,
        }
    }

    // Each y with a hop between `x` and y, in either direction, rising; none where no case has a hop of x. It takes no memory, and the time of
    // a look-up and of what it gives.
    pub(crate) fn neighbours(&self, x: u32) -> Option<NumberIter<'_>>
        ensures whole { (y n : ℕ) → has self.now x y n ≡ true
            → has_number (numbers_or result) y ≡ true }
        ensures only { (y : ℕ) → has_number (numbers_or result) y ≡ true
            → SomeCaseHas self.now x y }
        ensures rising { IsStrictlySortedBy nat_cmp (numbers_or result) }
    {
        neighbours::of(&self.ends, x)
    }

    // Appends each case with a hop between `x` and `y`, in either direction. Where there was no memory, some may have been appended.
    pub(crate) fn push_between(&self, x: u32, y: u32, into: &mut Vec<u32>) -> Result<(), NoMemory>
        ensures { OnOk result (Appends into.old.items (has self.now x y) into.new.items) }
    {
        self.hops.push_cases(Pair::of(x, y), into)
    }

    // The hops, for who reads them ahead of their use.
    #[inline(always)]
    pub(crate) fn hops(&self) -> &Hops {
        &self.hops
    }
}

// The hops of a chain, each with one case more.
fn insert_all(
    ends: &mut BTreeMap<u32, Numbers>,
    hops: &mut Hops,
    alloc: Global,
    chain: &[u32],
    case: u32,
) -> Result<(), NoMemory>
    ensures added { OnOk result (Adds hops.old case chain.now hops.new) }
    ensures kept { OnOk result (AreKept ends.old.entries hops.old → AreKept ends.new.entries hops.new) }
{
    for k in 1..chain.len() {
        insert(ends, hops, alloc, chain[k - 1], chain[k], case)?;
    }
    Ok(())
}

// The hops of a chain, each with one case less.
fn remove_all(ends: &mut BTreeMap<u32, Numbers>, hops: &mut Hops, chain: &[u32], case: u32)
    ensures removed { Removes hops.old case chain.now hops.new }
    ensures kept { AreKept ends.old.entries hops.old → AreKept ends.new.entries hops.new }
{
    for k in 1..chain.len() {
        remove(ends, hops, chain[k - 1], chain[k], case);
    }
}

// Each of these hops, with one case less. They are read ahead of their use.
fn remove_gone(ends: &mut BTreeMap<u32, Numbers>, hops: &mut Hops, gone: &[GoneHop])
    ensures removed { RemovesEach hops.old gone.now hops.new }
    ensures kept { AreKept ends.old.entries hops.old → AreKept ends.new.entries hops.new }
{
    // the first of them that isn't read yet
    let mut unread = 0;
    for k in 0..gone.len() {
        if k >= unread {
            unread = ahead::read_gone(hops, gone, k);
        }
        let hop = gone[k];
        remove(ends, hops, hop.pair.low, hop.pair.high, hop.case);
    }
}

// One case more of the hop between two ASes. Where the hop is new, each of them is a neighbour of the other from now on.
#[inline(always)]
fn insert(
    ends: &mut BTreeMap<u32, Numbers>,
    hops: &mut Hops,
    alloc: Global,
    x: u32,
    y: u32,
    case: u32,
) -> Result<(), NoMemory>
    ensures added { OnOk result (AddsHop hops.old x y case hops.new) }
    ensures kept { OnOk result (AreKept ends.old.entries hops.old
        → AreKept ends.new.entries hops.new) }
{
    if hops.insert(Pair::of(x, y), case)? {
        neighbours::insert(ends, alloc, x, y)?;
        neighbours::insert(ends, alloc, y, x)?;
    }
    Ok(())
}

// One case less of the hop between two ASes. Where it was the last one, neither of them is a neighbour of the other from now on.
fn remove(ends: &mut BTreeMap<u32, Numbers>, hops: &mut Hops, x: u32, y: u32, case: u32)
    ensures removed { RemovesHop hops.old x y case hops.new }
    ensures kept { AreKept ends.old.entries hops.old → AreKept ends.new.entries hops.new }
{
    if hops.remove(Pair::of(x, y), case) {
        neighbours::remove(ends, x, y);
        neighbours::remove(ends, y, x);
    }
}
