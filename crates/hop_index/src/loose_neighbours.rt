//! The neighbours of one AS, one after another, of chains that aren't in lists.
ghost use Rattle.std.specs.Prelude.{◌≡◌, ℕ, true};
ghost use Rattle.std.specs.Iterator.{YieldsFirst, item_count};
ghost use Rattle.std.specs.List.Sorted.{IsStrictlySortedBy};
ghost use Rattle.std.specs.Ordering.{nat_cmp};
ghost use Rattle.hop_index.specs.Hops.{has_hop};
ghost use Rattle.hop_index.specs.Loose.{chain_at, SomeChainHas};
ghost use Rattle.hop_index.specs.Numbers.{has_number};

use crate::least::least_beside;
use crate::loose::Loose;
use std::marker::Model;

// The other ends of one AS's hops, rising, each once; a contract sees those that are still to come. Each takes the time of going over all
// chains, and so does the end.
#[derive(Drop)]
pub(crate) struct LooseNeighbours<'a> {
    pub(crate) loose: &'a Loose,
    pub(crate) x: u32,
    // the least AS that may be the next one
    pub(crate) from: u64,
}

impl<'a> Model for LooseNeighbours<'a> {
    ghost use Rattle.std.specs.Prelude.{List, ℕ};
    ghost use Rattle.hop_index.specs.Loose.{beside, not_below};

    ghost Value = { List ℕ };

    ghost view = { λ n. not_below n.from (beside n.x n.loose.now) };
}

impl<'a> LooseNeighbours<'a> {
    // All of them.
    pub(crate) fn new(loose: &'a Loose, x: u32) -> LooseNeighbours<'a>
        ensures whole { (y n : ℕ) → has_hop (chain_at loose.now n) x y ≡ true
            → has_number result y ≡ true }
        ensures only { (y : ℕ) → has_number result y ≡ true → SomeChainHas loose.now x y }
        ensures rising { IsStrictlySortedBy nat_cmp result }
    {
        LooseNeighbours { loose, x, from: 0 }
    }
}

impl<'a> Iterator for LooseNeighbours<'a> {
    type Item = u32;

    ghost next_gives = { YieldsFirst (λ left. left) };

    ghost remaining = { item_count (λ left. left) };

    fn next(&mut self) -> Option<u32> {
        match least_beside(self.loose, self.x, self.from) {
            None => None,
            Some(y) => {
                self.from = u64::from(y) + 1;
                Some(y)
            }
        }
    }
}
