//! Hops by their ASes.
ghost use Rattle.std.specs.Prelude.{◌≡◌, ◌++◌, ℕ, true, IfOk, OnOk};
ghost use Rattle.std.specs.List.Sorted.{IsStrictlySortedBy};
ghost use Rattle.std.specs.Ordering.{nat_cmp};
ghost use Rattle.hop_index.specs.Ends.{end_cmp, has_end};
ghost use Rattle.hop_index.specs.Hops.{has_hop};
ghost use Rattle.hop_index.specs.Index.{has, HasNothing, HasTheSame, IsNeighbour, IsListed, IsWholeChain, Adds, Removes, RemovesEach, AreGathered, LetsGo, stays};
ghost use Rattle.hop_index.specs.Kept.{HaveChains};
ghost use Rattle.hop_index.specs.Numbers.{has_number, Appends};
ghost use Rattle.hop_index.specs.Through.{ends_left};

use crate::ahead;
use crate::gone::GoneHops;
use crate::hops::Hops;
use crate::lists::HopLists;
use crate::loose::Loose;
use crate::loose_between::LooseBetween;
use crate::loose_neighbours::LooseNeighbours;
use crate::loose_through::LooseThrough;
use crate::neighbour_iter::{Left as NeighboursLeft, Neighbours};
use crate::through::{Left, Through};
use av_base::NoMemory;
use path_model::AsList;
use std::alloc::Global;
use std::marker::Model;

/// Which cases have a hop between two ASes, of cases under numbers below 2^32. The cases of each hop stand in lists; an index that is
/// [made without them](HopIndex::unlisted) holds the chains alone until [`HopIndex::list`] makes the lists, so that cases come and go at the
/// cost of a few bytes as long as nobody asks for a hop. A chain takes 4 bytes for each AS and 8 more, and up to twice that while the room
/// doubles; where some went, up to as much again and 262,144 bytes more once the next case comes. In lists each hop of a case is held once, under its two ASes. The first case of a hop takes 24 to 48 bytes, the
/// hop in a list, and 19 to 39 more, its place by the two ASes; the first hop of an AS takes 20 to 50 more. The second and third case of a
/// hop take nothing, and neither do the second and third neighbour of an AS; a fourth takes 40, a list of them whose room doubles when it is
/// full. More than 512 stand in chunks, 4 bytes each where they come in order and up to 16 else, and some 2300 more. What no case needs is
/// given back, a list of numbers only with the last of them; the room for hops and their places stays, and further hops take it.
pub struct HopIndex {
    alloc: Global,
    kept: Kept,
}

// How hops are held.
#[derive(Drop)]
pub(crate) enum Kept {
    Loose(Loose),
    Listed(HopLists),
}

/// Written by hand and not derived: a check of a function that lets an index go then has one call there, and not each field.
impl Drop for HopIndex {
    fn drop(self) {
        let HopIndex {
            alloc: _alloc,
            kept: _kept,
        } = self;
    }
}

impl Model for HopIndex {
    ghost use Rattle.hop_index.specs.Index.{Entries};

    ghost Value = { Entries };

    ghost view = { λ a. a.kept };
}

impl HopIndex {
    /// An index of no hops, in lists. It takes no memory.
    pub fn new(alloc: Global) -> HopIndex
        ensures empty { HasNothing result }
        ensures listed { IsListed result }
    {
        HopIndex {
            alloc,
            kept: Kept::Listed(HopLists::new(alloc)),
        }
    }

    /// An index of no hops, which makes no lists before it is asked to. It takes no memory.
    pub fn unlisted(alloc: Global) -> HopIndex
        ensures { HasNothing result }
    {
        HopIndex {
            alloc,
            kept: Kept::Loose(Loose::new(alloc)),
        }
    }

    /// The cases of each hop stand in lists from now on. Where that was so nothing changes; else it takes the time and the memory of all hops.
    pub fn list(&mut self) -> Result<(), NoMemory>
        ensures same { HasTheSame self.old self.new }
        ensures listed { OnOk result (IsListed self.new) }
    {
        if let Kept::Loose(loose) = &self.kept {
            self.kept = Kept::Listed(listed(self.alloc, loose)?);
        }
        Ok(())
    }

    /// The hops of a case come in: those between each two neighbours of its chain, in both orders. What there was before of this case stays.
    /// For a number of 2^32 or above there is no memory. Where there was none, nothing is promised of the hops. The hops are listed from then
    /// on. Each takes one look-up, and three to six more where it is new.
    pub fn add(&mut self, case: usize, chain: &AsList) -> Result<(), NoMemory>
        ensures added { OnOk result (Adds self.old case chain.now self.new) }
        ensures listed { OnOk result (IsListed self.new) }
    {
        match &mut self.kept {
            Kept::Listed(lists) => lists.add(case, chain.as_slice()),
            Kept::Loose(loose) => {
                let mut lists = listed(self.alloc, loose)?;
                lists.add(case, chain.as_slice())?;
                self.kept = Kept::Listed(lists);
                Ok(())
            }
        }
    }

    /// The same, but as long as the hops aren't listed the chain alone is taken, with a step for each of its ASes. Where the case has a chain,
    /// or a number beyond the next one, they are listed first. Where more words are of chains that went than of others, and 65,536 beyond, the
    /// others are put together anew.
    #[inline(always)]
    pub fn put(&mut self, case: usize, chain: &AsList) -> Result<(), NoMemory>
        ensures { OnOk result (Adds self.old case chain.now self.new) }
    {
        if self.is_worn() {
            self.renew()?;
        }
        if let Kept::Loose(loose) = &mut self.kept {
            if loose.takes(case) {
                return loose.put(case, chain.as_slice());
            }
        }
        self.add(case, chain)
    }

    /// The hops of a case between each two neighbours of a chain go, in either order. Hops that weren't there, and those of other cases, make
    /// no difference. It takes no memory. Each hop takes one look-up, and up to seven more with its last case.
    pub fn remove(&mut self, case: usize, chain: &AsList)
        requires { IsListed self.old }
        ensures removed { Removes self.old case chain.now self.new }
        ensures listed { IsListed self.new }
    {
        match &mut self.kept {
            Kept::Listed(lists) => lists.remove(case, chain.as_slice()),
            Kept::Loose(_) => {}
        }
    }

    /// All hops of a case go, with the chain that has them. It takes no memory. Where the hops aren't listed it takes a step, else what
    /// [`HopIndex::remove`] does.
    pub fn forget(&mut self, case: usize, chain: &AsList)
        requires { IsWholeChain self.old case chain.now }
        ensures { Removes self.old case chain.now self.new }
    {
        match &mut self.kept {
            Kept::Listed(lists) => lists.remove(case, chain.as_slice()),
            Kept::Loose(loose) => loose.clear(case, chain.len()),
        }
    }

    /// All hops of a case go, with the chain that has those that don't go already: where the hops are listed they come to those that will go,
    /// for [`HopIndex::remove_each`]; else they go at once. Where there was no memory, nothing is promised of those that will go.
    pub fn let_go(
        &mut self,
        case: usize,
        chain: &AsList,
        gone: &mut GoneHops,
    ) -> Result<(), NoMemory>
        requires whole { (x y : ℕ) → stays self.old gone.old x y case ≡ true
            → has_hop chain.now x y ≡ true }
        requires gathered { AreGathered self.old gone.old }
        ensures gone { OnOk result (LetsGo self.old gone.old case chain.now self.new gone.new) }
        ensures gathered { OnOk result (AreGathered self.new gone.new) }
    {
        match &mut self.kept {
            Kept::Listed(_) => gone.push(case, chain),
            Kept::Loose(loose) => {
                loose.clear(case, chain.len());
                Ok(())
            }
        }
    }

    /// The hops of many cases go, in either order. Hops that weren't there, and those of other cases, make no difference. It costs the time of
    /// sorting them, and of each what [`HopIndex::remove`] costs; but those between the same two ASes go one after another, in the order in
    /// which they were pushed, and up to 64 hops are read ahead, so that memory is waited for less often. While they are sorted they take 12
    /// bytes each more; where there is no memory for that, they go in the order in which they were pushed.
    pub fn remove_each(&mut self, gone: GoneHops)
        requires { AreGathered self.old gone }
        ensures { RemovesEach self.old gone self.new }
    {
        match &mut self.kept {
            Kept::Listed(lists) => lists.remove_each(gone),
            Kept::Loose(_) => {}
        }
    }

    /// Each y and case with a hop between `x` and y, in either direction: by rising y and then by rising case, each pair once. It takes
    /// no memory, and the time of a look-up, of another one for each y, and of what it gives. Where the hops aren't listed, it goes over all
    /// chains twice for each y.
    pub fn through(&self, x: u32) -> Through<'_>
        ensures exact { (y n : ℕ) → has_end (ends_left result) y n ≡ has self.now x y n }
        ensures rising { IsStrictlySortedBy end_cmp (ends_left result) }
    {
        let left = match &self.kept {
            Kept::Listed(lists) => Left::Listed(lists.through(x)),
            Kept::Loose(loose) => Left::Loose(LooseThrough::new(loose, x)),
        };
        Through { left }
    }

    /// Each y with a hop between `x` and y of some case, in either direction, by rising y, each once. It takes no memory, and the time of a
    /// look-up and of what it gives. Where the hops aren't listed, it goes over all chains once for each y, and once more at the end.
    pub fn neighbours(&self, x: u32) -> Neighbours<'_>
        ensures whole { (y n : ℕ) → has self.now x y n ≡ true → has_number result y ≡ true }
        ensures only { (y : ℕ) → has_number result y ≡ true → IsNeighbour self.now x y }
        ensures rising { IsStrictlySortedBy nat_cmp result }
    {
        let left = match &self.kept {
            Kept::Listed(lists) => NeighboursLeft::Listed(lists.neighbours(x)),
            Kept::Loose(loose) => NeighboursLeft::Loose(LooseNeighbours::new(loose, x)),
        };
        Neighbours { left }
    }

    /// Appends each case with a hop between `x` and `y`, in either direction. It takes the time of a look-up, and one copy of what is found,
    /// and memory only where `into` has no room. Where there was none, some may have been appended. Where the hops aren't listed, it goes over
    /// all chains.
    pub fn push_between(&self, x: u32, y: u32, into: &mut Vec<u32>) -> Result<(), NoMemory>
        ensures { OnOk result (Appends into.old.items (has self.now x y) into.new.items) }
    {
        match &self.kept {
            Kept::Listed(lists) => lists.push_between(x, y, into),
            Kept::Loose(loose) => push_each(LooseBetween::new(loose, x, y), into),
        }
    }

    /// Whether no case came yet to an index that isn't listed. Nothing is promised of it.
    pub fn has_no_case_yet(&self) -> bool {
        match &self.kept {
            Kept::Listed(_) => false,
            Kept::Loose(loose) => loose.len() == 0,
        }
    }

    // Whether many words are of chains that went. Nothing is promised of it.
    #[inline(always)]
    fn is_worn(&self) -> bool {
        match &self.kept {
            Kept::Listed(_) => false,
            Kept::Loose(loose) => loose.is_worn(),
        }
    }

    // The chains are put together anew, where the hops aren't listed.
    #[inline(never)]
    fn renew(&mut self) -> Result<(), NoMemory>
        ensures { HasTheSame self.old self.new }
    {
        if let Kept::Loose(loose) = &self.kept {
            self.kept = Kept::Loose(loose.compacted(self.alloc)?);
        }
        Ok(())
    }

    // The hops in lists, for who reads them ahead of their use.
    #[inline(always)]
    pub(crate) fn hops(&self) -> Option<&Hops> {
        match &self.kept {
            Kept::Listed(lists) => Some(lists.hops()),
            Kept::Loose(_) => None,
        }
    }
}

// Appends these cases. For a number of 2^32 or above there is no memory.
fn push_each(cases: LooseBetween<'_>, into: &mut Vec<u32>) -> Result<(), NoMemory>
    ensures { OnOk result (into.new.items ≡ into.old.items ++ cases.entry) }
{
    for case in cases {
        let Ok(number) = u32::try_from(case) else {
            return Err(NoMemory);
        };
        into.push(number)?;
    }
    Ok(())
}

// The hops of these chains in lists. They are read ahead of their use.
fn listed(alloc: Global, loose: &Loose) -> Result<HopLists, NoMemory>
    ensures { IfOk result (HaveChains loose.now) }
{
    let mut lists = HopLists::new(alloc);
    // the first case whose hops aren't read yet
    let mut unread = 0;
    for case in 0..loose.len() {
        if case >= unread {
            unread = ahead::read_loose(&lists, loose, case);
        }
        lists.add(case, loose.get(case))?;
    }
    Ok(lists)
}
