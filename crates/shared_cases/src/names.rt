//! The cases by their names.
ghost use Rattle.std.specs.Prelude.{◌≡◌, ◌↔◌, ℕ, [], Some, IfNone, IfSome, IsTrue, OnOk};
ghost use Rattle.std.specs.FinMap as map;
ghost use Rattle.shared_cases.specs.Cases.{at, IsAbsent, IsStoredAs};
ghost use Rattle.shared_cases.specs.Names.{name_of};
ghost use Rattle.shared_cases.specs.Naming.{worded, AddsName, AreNamed, IsNoFirst, RemovesName};

use crate::case::StoredCase;
use crate::case_name::CaseName;
use crate::slots;
use av_base::NoMemory;
use slab::Slab;
use std::alloc::Global;
use std::collections::BTreeMap;
use word_map::WordMap;

// The number of each case, under its word or, where another case has that, under its whole name.
#[derive(Drop)]
pub(crate) struct Names {
    // of each word a case that has it: the one that came while no other stood under it
    pub(crate) words: WordMap,
    // those that came while another had their word
    pub(crate) twins: BTreeMap<CaseName, u32>,
}

impl Names {
    // No names. It takes no memory.
    pub(crate) fn new(alloc: Global) -> Names
        ensures words { result.words ≡ map.empty }
        ensures twins { result.twins.entries ≡ [] }
    {
        Names {
            words: WordMap::new(alloc),
            twins: BTreeMap::new(alloc),
        }
    }

    // The number of the case of this name.
    pub(crate) fn find(&self, slab: &Slab<StoredCase>, name: &CaseName) -> Option<u32>
        requires named { name.now ≡ name_of name.now.asn name.now.trail }
        requires kept { AreNamed slab.now.slots self.now }
        ensures some { IfSome result (λ n. IsStoredAs (at slab.now.slots n) name.now.asn name.now.trail) }
        ensures none { IfNone result (IsAbsent slab.now.slots name.now.asn name.now.trail) }
    {
        if let Some(number) = self.first_of(slab, name) {
            return Some(number);
        }
        self.twins.get(name).copied()
    }

    // The case that has the word of this name, if it is the case of this name.
    fn first_of(&self, slab: &Slab<StoredCase>, name: &CaseName) -> Option<u32>
        ensures some { IfSome result (λ n. IsStoredAs (at slab.now.slots n) name.now.asn name.now.trail) }
        ensures none { IfNone result (IsNoFirst slab.now.slots self.now name.now) }
    {
        let number = self.words.get(name.word)?;
        if slots::is_stored_as(slab, number as usize, name.asn, &name.trail) {
            Some(number)
        } else {
            None
        }
    }

    // The number under a word, of whichever case has it.
    #[inline(always)]
    pub(crate) fn hint(&self, word: u64) -> Option<u32> {
        self.words.get(word)
    }

    // The same, where it is found with one look.
    #[inline(always)]
    pub(crate) fn near(&self, word: u64) -> Option<u32> {
        self.words.near(word)
    }

    // One name more. It takes no memory for the path unless another case has its word.
    pub(crate) fn add(&mut self, name: CaseName, number: u32) -> Result<(), NoMemory>
        requires { name ≡ name_of name.asn name.trail }
        ensures { OnOk result (AddsName self.old name.asn name.trail number self.new) }
    {
        match self.words.put_if_absent(name.word, number)? {
            None => Ok(()),
            Some(_) => {
                self.twins.insert(name, number)?;
                Ok(())
            }
        }
    }

    // One name less. It takes no memory.
    pub(crate) fn remove(&mut self, name: &CaseName, number: u32)
        requires { name.now ≡ name_of name.now.asn name.now.trail }
        ensures { RemovesName self.old name.now.asn name.now.trail number self.new }
    {
        if self.has_word(name.word, number) {
            self.words.remove(name.word);
        } else {
            self.twins.remove(name);
        }
    }

    // Whether the word has this number.
    fn has_word(&self, word: u64, number: u32) -> bool
        ensures { IsTrue result ↔ (worded self.now.words word ≡ Some number) }
    {
        match self.words.get(word) {
            None => false,
            Some(held) => held == number,
        }
    }
}
