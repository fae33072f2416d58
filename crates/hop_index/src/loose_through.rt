//! The hops of one AS, one after another, read from the chains of an index whose hops aren't in lists yet (`loose`).
ghost use Rattle.std.specs.Prelude.{◌≡◌, ℕ};
ghost use Rattle.std.specs.Iterator.{YieldsFirstBy, item_count};
ghost use Rattle.std.specs.List.Sorted.{IsStrictlySortedBy};
ghost use Rattle.hop_index.specs.Ends.{end_cmp, has_end};
ghost use Rattle.hop_index.specs.Hops.{has_hop};
ghost use Rattle.hop_index.specs.Loose.{chain_at};
ghost use Rattle.hop_index.specs.LooseEnds.{loose_ends};

use crate::least::least_beside;
use crate::loose::Loose;
use crate::loose_between::LooseBetween;

// The other ends of one AS's hops: each AS with a case that has a hop to it, by rising AS and then by rising case. Each AS takes the time of
// going over all chains twice.
#[derive(Drop)]
pub(crate) struct LooseThrough<'a> {
    pub(crate) loose: &'a Loose,
    pub(crate) x: u32,
    // the least AS that may be the next one
    pub(crate) from: u64,
    // the AS that is gone through, if one is, and what is left of its cases
    pub(crate) y: u32,
    pub(crate) cases: LooseBetween<'a>,
}

impl<'a> LooseThrough<'a> {
    // All of them.
    pub(crate) fn new(loose: &'a Loose, x: u32) -> LooseThrough<'a>
        ensures exact { (y n : ℕ) → has_end (loose_ends result) y n ≡ has_hop (chain_at loose.now n) x y }
        ensures rising { IsStrictlySortedBy end_cmp (loose_ends result) }
    {
        LooseThrough {
            loose,
            x,
            from: 0,
            y: 0,
            cases: LooseBetween::none(loose),
        }
    }
}

impl<'a> Iterator for LooseThrough<'a> {
    type Item = (u32, usize);

    ghost next_gives = { YieldsFirstBy (λ end. end) loose_ends };

    ghost remaining = { item_count loose_ends };

    fn next(&mut self) -> Option<(u32, usize)> {
        loop {
            if let Some(case) = self.cases.next() {
                return Some((self.y, case));
            }
            match least_beside(self.loose, self.x, self.from) {
                None => return None,
                Some(y) => {
                    self.y = y;
                    self.from = u64::from(y) + 1;
                    self.cases = LooseBetween::new(self.loose, self.x, y);
                }
            }
        }
    }
}
