//! The map.
ghost use Rattle.std.specs.Prelude.{◌≡◌, ◌<◌, ◌-◌, ◌^◌, None, IfOk, OnOk, OnErr, IfSome, IfNone};
ghost use Rattle.std.specs.Ordering.{nat_cmp};
ghost use Rattle.std.specs.FinMap as map;

use crate::slot::Slot;
use crate::{growing, table};
use av_base::NoMemory;
use std::alloc::Global;
use std::collections::BTreeMap;
use std::marker::Model;

/// A number below 2^32 - 1 for each of some words. A word takes 19 to 39 bytes, and 12 to 27 more where it lies in the ordered map; while the
/// slots double, half as much again, and while they are cleared of what removed words left in them, as much again. A word lies in one of 16
/// slots, or else in that map: so whoever picks the words gains no more than the time of it.
#[derive(Debug, Drop)]
pub struct WordMap {
    alloc: Global,
    // none, or a power of two
    slots: Vec<Slot>,
    // the words of which no slot was free
    over: BTreeMap<u64, u32>,
    // how many words there are, in both
    len: usize,
    // how many words went since the slots are these, less the marked slots that were taken again; no promise rests on it
    marks: usize,
}

impl Model for WordMap {
    ghost use Rattle.std.specs.Prelude.{ℕ};
    ghost use Rattle.std.specs.Ordering.{nat_cmp};
    ghost use Rattle.std.specs.FinMap as map;
    ghost use Rattle.std.specs.Coded.{coded_ℕ};
    ghost use Rattle.word_map.specs.Slots.{map_of};
    ghost use Rattle.word_map.specs.Whole.{AreCounted};

    ghost Value = { map.FinMap nat_cmp ℕ };

    ghost coded = { map.code coded_ℕ coded_ℕ };

    ghost view = { λ a. map_of a.slots.items a.over.entries };

    ghost invariant = { λ a. AreCounted a.slots.items a.over.entries a.len };
}

impl WordMap {
    /// No words. It takes no memory.
    pub fn new(alloc: Global) -> WordMap
        ensures { result ≡ map.empty }
    {
        WordMap {
            alloc,
            slots: Vec::new(alloc),
            over: BTreeMap::new(alloc),
            len: 0,
            marks: 0,
        }
    }

    /// How many words have a number.
    pub fn len(&self) -> usize
        ensures { result ≡ map.len self.now }
    {
        self.len
    }

    /// The number of a word; `None` exactly where it has none. It goes over the word's slots up to the one that has it, or to one that is
    /// blank, and asks the ordered map only where there is neither. It takes no memory.
    #[inline(always)]
    pub fn get(&self, word: u64) -> Option<u32>
        ensures { result ≡ map.get self.now word }
    {
        table::look_up(self.slots.as_slice(), &self.over, word)
    }

    /// The number of a word, where that lies at the first or second of its places, as four of five do. It reads both slots before it decides
    /// anything, so that where many words are looked up one after another, memory is waited for once and not for each. `None` says nothing.
    /// It takes no memory.
    #[inline(always)]
    pub fn near(&self, word: u64) -> Option<u32>
        ensures { IfSome result (λ number. map.get self.now word ≡ Some number) }
    {
        table::look_near(self.slots.as_slice(), &self.over, word)
    }

    /// A word has this number from now on, and the one that it had is answered. Where there is no memory, nothing changed; for the number
    /// 2^32 - 1 there is none. It costs what [`WordMap::replace`] costs, and [`WordMap::put_new`] where the word has none.
    pub fn set(&mut self, word: u64, number: u32) -> Result<Option<u32>, NoMemory>
        ensures before { IfOk result (λ before. before ≡ map.get self.old word) }
        ensures ok { OnOk result (self.new ≡ map.insert self.old word number) }
        ensures err { OnErr result (self.new ≡ self.old) }
        ensures small { OnOk result (number < 2 ^ 32 - 1) }
    {
        if number == u32::MAX {
            return Err(NoMemory);
        }
        if let Some(before) = self.replace(word, number) {
            return Ok(Some(before));
        }
        self.put_new(word, number)?;
        Ok(None)
    }

    /// A word that has no number has this one from now on; where it has one, that is answered, and nothing changed. Where there is no memory,
    /// nothing changed; for the number 2^32 - 1 there is none. It costs what [`WordMap::get`] costs, and [`WordMap::put_new`] where the word has
    /// none.
    #[inline(always)]
    pub fn put_if_absent(&mut self, word: u64, number: u32) -> Result<Option<u32>, NoMemory>
        ensures before { IfOk result (λ before. before ≡ map.get self.old word) }
        ensures some { IfOk result (λ before. IfSome before (λ _. self.new ≡ self.old)) }
        ensures none { IfOk result (λ before. IfNone before
            (self.new ≡ map.insert self.old word number)) }
        ensures err { OnErr result (self.new ≡ self.old) }
        ensures small { IfOk result (λ before. IfNone before (number < 2 ^ 32 - 1)) }
    {
        if let Some(before) = self.get(word) {
            return Ok(Some(before));
        }
        self.put_new(word, number)?;
        Ok(None)
    }

    /// A word that has no number has this one from now on; it isn't looked up. Where there is no memory, nothing changed; for the number
    /// 2^32 - 1 there is none. It takes the first free slot of the word. Where the slots double, or are cleared of what removed words left in
    /// them, it goes over all; that is a few steps for each word that was put or removed.
    #[inline(never)]
    pub fn put_new(&mut self, word: u64, number: u32) -> Result<(), NoMemory>
        requires { map.get self.old word ≡ None }
        ensures ok { OnOk result (self.new ≡ map.insert self.old word number) }
        ensures err { OnErr result (self.new ≡ self.old) }
        ensures small { OnOk result (number < 2 ^ 32 - 1) }
    {
        if number == u32::MAX {
            return Err(NoMemory);
        }
        self.make_room()?;
        self.add(word, number)
    }

    /// A word has no number from now on, and the one that it had is answered. It takes no memory.
    pub fn remove(&mut self, word: u64) -> Option<u32>
        ensures before { result ≡ map.get self.old word }
        ensures removed { self.new ≡ map.remove self.old word }
    {
        let before = table::take_out(&mut self.slots, &mut self.over, word);
        let gone = usize::from(before.is_some());
        self.len -= gone;
        self.marks = self.marks.saturating_add(gone);
        before
    }

    /// A word that has a number gets this one, below 2^32 - 1, and the one that it had is answered; `None` exactly where it has none, and
    /// then nothing changed. It takes no memory.
    #[inline(always)]
    pub fn replace(&mut self, word: u64, number: u32) -> Option<u32>
        requires { number < 2 ^ 32 - 1 }
        ensures before { result ≡ map.get self.old word }
        ensures some { IfSome result (λ _. self.new ≡ map.insert self.old word number) }
        ensures none { IfNone result (self.new ≡ self.old) }
    {
        table::replace(&mut self.slots, &mut self.over, word, number)
    }

    // Fewer words in slots than five eighths of these, if there is memory. So few words find none of their slots free. Those in the ordered map
    // don't count: more slots would do little for words that were chosen so that they share theirs. Where a quarter is marked, and as many more
    // as there are words in that map, all are placed anew among as many slots: so a search soon comes to a blank one, and that costs a few
    // steps for each word that went.
    fn make_room(&mut self) -> Result<(), NoMemory>
        ensures { self.new ≡ self.old }
    {
        let len = self.slots.len();
        let over = self.over.len();
        let within = self.len.saturating_sub(over);
        if within >= len / 2 + len / 8 {
            return self.place_anew(growing::doubled(len));
        }
        if self.marks >= over.saturating_add(len / 4) {
            // where there is no memory for it, the marks stay
            let _ = self.place_anew(len);
        }
        Ok(())
    }

    // The words among so many slots, without marks.
    #[inline(never)]
    fn place_anew(&mut self, len: usize) -> Result<(), NoMemory>
        ensures { self.new ≡ self.old }
    {
        let (slots, over) = growing::placed_anew(
            self.alloc,
            len,
            self.slots.as_slice(),
            &self.over,
        )?;
        self.slots = slots;
        self.over = over;
        self.marks = 0;
        Ok(())
    }

    // A word that has no number gets this one.
    fn add(&mut self, word: u64, number: u32) -> Result<(), NoMemory>
        requires { map.get self.old word ≡ None }
        ensures ok { OnOk result (self.new ≡ map.insert self.old word number) }
        ensures err { OnErr result (self.new ≡ self.old) }
    {
        if self.len == usize::MAX {
            return Err(NoMemory);
        }
        let marked = table::put_new(&mut self.slots, &mut self.over, word, number)?;
        self.len += 1;
        self.marks = self.marks.saturating_sub(usize::from(marked));
        Ok(())
    }
}
