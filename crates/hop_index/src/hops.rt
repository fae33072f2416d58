//! The cases of each hop, which stands once in a list without gaps.
ghost use Rattle.std.specs.Prelude.{◌≡◌, ◌≢◌, ◌↔◌, not, ◌++◌, ◌||◌, ◌&&◌, [], Some, None, IfOk, OnOk, IsTrue};
ghost use Rattle.hop_index.specs.declared.pair.Pair.{Pair};
ghost use Rattle.std.specs.Option.{option_copied};
ghost use Rattle.hop_index.specs.Lists.{at};
ghost use Rattle.hop_index.specs.Numbers.{numbers_or};
ghost use Rattle.hop_index.specs.Kept.{stands, is_pair, Updates, AddsCase, RemovesCase, HaveCases, AreRising};

use crate::number_iter::NumberIter;
use crate::numbers::Numbers;
use crate::pair::Pair;
use av_base::NoMemory;
use std::alloc::Global;
use std::marker::Model;
use word_map::WordMap;

// The hops, each with its cases.
#[derive(Drop)]
pub(crate) struct Hops {
    alloc: Global,
    // the place of each hop in the list, by its pair as a word
    by_pair: WordMap,
    // the place of one that goes is taken by the last one
    hops: Vec<(Pair, Numbers)>,
}

impl Model for Hops {
    ghost use Rattle.hop_index.specs.Lists.{Lists};
    ghost use Rattle.hop_index.specs.Places.{ArePlaced};

    ghost Value = { Lists };

    ghost view = { λ a. a.hops.items };

    ghost invariant = { λ a. ArePlaced a.by_pair a.hops.items };
}

impl Hops {
    // No hops. It takes no memory.
    pub(crate) fn new(alloc: Global) -> Hops
        ensures { result ≡ [] }
    {
        Hops {
            alloc,
            by_pair: WordMap::new(alloc),
            hops: Vec::new(alloc),
        }
    }

    // One case more of a hop, where it isn't there yet, and whether the hop had none before. It takes one look-up.
    #[inline(always)]
    pub(crate) fn insert(&mut self, pair: Pair, case: u32) -> Result<bool, NoMemory>
        ensures added { OnOk result (AddsCase self.old pair case self.new) }
        ensures stands { OnOk result ((p : Pair)
            → stands self.new p ≡ (stands self.old p || is_pair p pair)) }
        ensures first { IfOk result (λ first. first ≡ not (stands self.old pair)) }
        ensures kept { OnOk result (HaveCases self.old → HaveCases self.new) }
        ensures rising { OnOk result (AreRising self.old → AreRising self.new) }
    {
        match self.by_pair.get(pair.word()) {
            Some(place) => {
                self.hops[place as usize].1.insert(case)?;
                Ok(false)
            }
            None => {
                let mut cases = Numbers::new(self.alloc);
                cases.insert(case)?;
                self.push(pair, cases)?;
                Ok(true)
            }
        }
    }

    // One case less of a hop, which goes with its last case, and whether it did. It takes no memory.
    pub(crate) fn remove(&mut self, pair: Pair, case: u32) -> bool
        ensures removed { RemovesCase self.old pair case self.new }
        ensures stands { (p : Pair)
            → stands self.new p ≡ (stands self.old p && not (result && is_pair p pair)) }
        ensures kept { HaveCases self.old → HaveCases self.new }
        ensures rising { AreRising self.old → AreRising self.new }
    {
        let emptied = self.take_out(pair, case);
        if emptied {
            self.leave(pair);
        }
        emptied
    }

    // The cases of a hop; none where it has no entry.
    #[inline(always)]
    fn cases(&self, pair: Pair) -> Option<&Numbers>
        ensures { option_copied result ≡ at self.now pair }
    {
        match self.by_pair.get(pair.word()) {
            None => None,
            Some(place) => Some(&self.hops[place as usize].1),
        }
    }

    // The same, one after another, rising.
    #[inline(always)]
    pub(crate) fn of(&self, pair: Pair) -> Option<NumberIter<'_>>
        ensures { result ≡ at self.now pair }
    {
        match self.cases(pair) {
            None => None,
            Some(cases) => Some(cases.iter()),
        }
    }

    // Appends them. Where there was no memory, some may have been appended.
    pub(crate) fn push_cases(&self, pair: Pair, into: &mut Vec<u32>) -> Result<(), NoMemory>
        ensures { OnOk result (into.new.items ≡ into.old.items ++ numbers_or (at self.now pair)) }
    {
        match self.cases(pair) {
            None => Ok(()),
            Some(cases) => cases.push_into(into),
        }
    }

    // The place of a hop, where it is found with one look. Nothing is promised of it.
    #[inline(always)]
    pub(crate) fn near(&self, pair: Pair) -> Option<u32> {
        self.by_pair.near(pair.word())
    }

    // Reads how the cases of the hop at a place are held. The number says nothing.
    #[inline(always)]
    pub(crate) fn head(&self, place: u32) -> usize {
        match self.hops.get(place as usize) {
            None => 0,
            Some((_, cases)) => cases.head(),
        }
    }

    // Reads the last case of the hop at a place. The number says nothing.
    #[inline(always)]
    pub(crate) fn last(&self, place: u32) -> usize {
        match self.hops.get(place as usize) {
            None => 0,
            Some((_, cases)) => cases.read_last(),
        }
    }

    // A hop that isn't there yet comes behind the others, with these cases.
    #[inline(never)]
    fn push(&mut self, pair: Pair, cases: Numbers) -> Result<(), NoMemory>
        requires { at self.old pair ≡ None }
        ensures { OnOk result (Updates self.old pair (Some cases) self.new) }
    {
        let Ok(place) = u32::try_from(self.hops.len()) else {
            return Err(NoMemory);
        };
        self.by_pair.put_new(pair.word(), place)?;
        if self.hops.push((pair, cases)).is_err() {
            self.by_pair.remove(pair.word());
            return Err(NoMemory);
        }
        Ok(())
    }

    // One case less of a hop, and whether the hop stands there without cases.
    fn take_out(&mut self, pair: Pair, case: u32) -> bool
        ensures removed { RemovesCase self.old pair case self.new }
        ensures stands { (p : Pair) → stands self.new p ≡ stands self.old p }
        ensures emptied { IsTrue result ↔ (at self.new pair ≡ Some []) }
        ensures others { (p : Pair) → p ≢ pair → at self.new p ≡ at self.old p }
        ensures rising { AreRising self.old → AreRising self.new }
    {
        match self.by_pair.get(pair.word()) {
            None => false,
            Some(place) => {
                let cases = &mut self.hops[place as usize].1;
                cases.remove(case);
                cases.is_empty()
            }
        }
    }

    // A hop goes, if it is there, and the last one gets its place. It takes no memory.
    #[inline(never)]
    fn leave(&mut self, pair: Pair)
        ensures { Updates self.old pair None self.new }
    {
        let Some(place) = self.by_pair.remove(pair.word()) else {
            return;
        };
        self.hops.swap_remove(place as usize);
        if (place as usize) < self.hops.len() {
            let moved = self.hops[place as usize].0;
            self.by_pair.replace(moved.word(), place);
        }
    }
}
