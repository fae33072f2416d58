//! The cases that have the hop between two ASes, of chains that aren't in lists.
ghost use Rattle.std.specs.Prelude.{◌≡◌, ℕ, []};
ghost use Rattle.std.specs.Iterator.{YieldsFirst, item_count};
ghost use Rattle.std.specs.List.Sorted.{IsStrictlySortedBy};
ghost use Rattle.std.specs.Ordering.{nat_cmp};
ghost use Rattle.hop_index.specs.Hops.{has_hop};
ghost use Rattle.hop_index.specs.Loose.{chain_at, loose_at};
ghost use Rattle.hop_index.specs.Numbers.{has_number};

use crate::least::joins;
use crate::loose::Loose;
use std::marker::Model;

// The cases that have the hop between two ASes, rising; a contract sees those that are still to come. Each takes the time of the chains that
// are gone over.
#[derive(Drop)]
pub(crate) struct LooseBetween<'a> {
    pub(crate) loose: &'a Loose,
    pub(crate) x: u32,
    pub(crate) y: u32,
    // the first case whose chain is still to come
    pub(crate) next: usize,
}

impl<'a> Model for LooseBetween<'a> {
    ghost use Rattle.std.specs.Prelude.{List, ℕ, drop};
    ghost use Rattle.hop_index.specs.Loose.{cases_from};

    ghost Value = { List ℕ };

    ghost view = { λ b. cases_from b.x b.y b.next (drop b.next b.loose.now) };
}

impl<'a> LooseBetween<'a> {
    // All of them.
    pub(crate) fn new(loose: &'a Loose, x: u32, y: u32) -> LooseBetween<'a>
        ensures whole { result ≡ loose_at loose.now x y }
        ensures exact { (n : ℕ) → has_number result n ≡ has_hop (chain_at loose.now n) x y }
        ensures rising { IsStrictlySortedBy nat_cmp result }
    {
        LooseBetween {
            loose,
            x,
            y,
            next: 0,
        }
    }

    // None.
    pub(crate) fn none(loose: &'a Loose) -> LooseBetween<'a>
        ensures { result ≡ [] }
    {
        LooseBetween {
            loose,
            x: 0,
            y: 0,
            next: loose.len(),
        }
    }
}

impl<'a> Iterator for LooseBetween<'a> {
    type Item = usize;

    ghost next_gives = { YieldsFirst (λ left. left) };

    ghost remaining = { item_count (λ left. left) };

    fn next(&mut self) -> Option<usize> {
        while self.next < self.loose.len() {
            let case = self.next;
            self.next += 1;
            if joins(self.loose.get(case), self.x, self.y) {
                return Some(case);
            }
        }
        None
    }
}
