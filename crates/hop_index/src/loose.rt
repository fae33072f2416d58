//! The chains of cases whose hops aren't in lists yet.
ghost use Rattle.std.specs.Prelude.{◌≡◌, ◌≤◌, ◌<◌, [], length, IsTrue, IfOk, OnOk};
ghost use Rattle.hop_index.specs.Loose.{chain_at, HaveTheSame, SetsChain};

use crate::words::{NO_PLACE, chain_in, put_words};
use av_base::NoMemory;
use std::alloc::Global;
use std::marker::Model;

// How many words of chains that went may stay beyond as many as there are of others.
const SPARE: usize = 65_536;

// The chain of each case, one behind another. A chain takes 4 bytes for each AS and 8 more, and up to twice that while the room doubles; a
// number keeps 4 of them when its case goes. Words of chains that went stay until the next case comes, and then as many as of others and
// 65,536 more at most.
#[derive(Drop)]
pub(crate) struct Loose {
    // each chain behind its length, in the order in which they came; those that went stay
    words: Vec<u32>,
    // where the chain of each case begins in it
    begins: Vec<u32>,
    // how many words the chains take that didn't go
    used: usize,
}

impl Model for Loose {
    ghost use Rattle.hop_index.specs.Loose.{Chains};
    ghost use Rattle.hop_index.specs.Words.{chains_in, AreWithin};

    ghost Value = { Chains };

    ghost view = { λ a. chains_in a.words.items a.begins.items };

    ghost invariant = { λ a. AreWithin a.words.items a.begins.items };
}

impl Loose {
    // No chains. It takes no memory.
    pub(crate) fn new(alloc: Global) -> Loose
        ensures { result ≡ [] }
    {
        Loose {
            words: Vec::new(alloc),
            begins: Vec::new(alloc),
            used: 0,
        }
    }

    // The number behind that of the last case that has or had a chain.
    pub(crate) fn len(&self) -> usize
        ensures { result ≡ length self.now }
    {
        self.begins.len()
    }

    // The chain of a case, and an empty one where it has none.
    pub(crate) fn get(&self, case: usize) -> &[u32]
        ensures { result.now ≡ chain_at self.now case }
    {
        match self.begins.get(case) {
            None => &[],
            Some(begin) => chain_in(self.words.as_slice(), *begin as usize),
        }
    }

    // Whether a chain of this case can come: it has none, and its number is at most the next one.
    #[inline(always)]
    pub(crate) fn takes(&self, case: usize) -> bool
        ensures next { IsTrue result → case ≤ length self.now }
        ensures empty { IsTrue result → chain_at self.now case ≡ [] }
    {
        case <= self.begins.len() && self.get(case).is_empty()
    }

    // A case has this chain from now on.
    #[inline(always)]
    pub(crate) fn put(&mut self, case: usize, chain: &[u32]) -> Result<(), NoMemory>
        requires { case ≤ length self.old }
        ensures set { OnOk result (SetsChain self.old case chain.now self.new) }
        ensures longer { OnOk result (case < length self.new) }
    {
        let begin = put_words(&mut self.words, chain)?;
        if case < self.begins.len() {
            self.begins[case] = begin;
        } else {
            self.begins.push(begin)?;
        }
        self.used = self.used.saturating_add(chain.len()).saturating_add(1);
        Ok(())
    }

    // A case has no chain from now on, where it had one of so many ASes: its words aren't read. It takes no memory.
    #[inline(always)]
    pub(crate) fn clear(&mut self, case: usize, len: usize)
        ensures { SetsChain self.old case [] self.new }
    {
        if case < self.begins.len() {
            self.begins[case] = NO_PLACE as u32;
        }
        self.used = self.used.saturating_sub(len).saturating_sub(1);
    }

    // The same chains without the words of those that went. It takes the time and the memory of what the chains are.
    pub(crate) fn compacted(&self, alloc: Global) -> Result<Loose, NoMemory>
        ensures { IfOk result (HaveTheSame self.now) }
    {
        let mut loose = Loose::new(alloc);
        for case in 0..self.len() {
            loose.put(case, self.get(case))?;
        }
        Ok(loose)
    }

    // Whether many words are of chains that went. Nothing is promised of it.
    pub(crate) fn is_worn(&self) -> bool {
        self.words.len() > self.used.saturating_mul(2).saturating_add(SPARE)
    }
}
