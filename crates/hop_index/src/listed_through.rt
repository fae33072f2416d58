//! The hops of one AS, one after another.
ghost use Rattle.std.specs.Iterator.{YieldsFirstBy, item_count};
ghost use Rattle.hop_index.specs.Ends.{listed_ends};

use crate::hops::Hops;
use crate::number_iter::NumberIter;
use crate::pair::Pair;

/// The other ends of one AS's hops: each AS with a case that has a hop to it, by rising AS and then by rising case.
#[derive(Drop)]
pub struct ListedThrough<'a> {
    pub(crate) hops: &'a Hops,
    pub(crate) x: u32,
    // the neighbours of x whose cases are still to come; none where no case has a hop of x
    pub(crate) neighbours: Option<NumberIter<'a>>,
    // the neighbour that is gone through, if one is, and what is left of its cases
    pub(crate) y: u32,
    pub(crate) cases: Option<NumberIter<'a>>,
}

impl<'a> Iterator for ListedThrough<'a> {
    type Item = (u32, usize);

    ghost next_gives = { YieldsFirstBy (λ end. end) listed_ends };

    ghost remaining = { item_count listed_ends };

    fn next(&mut self) -> Option<(u32, usize)> {
        loop {
            if let Some(cases) = &mut self.cases {
                if let Some(case) = cases.next() {
                    return Some((self.y, case as usize));
                }
            }
            let Some(neighbours) = &mut self.neighbours else {
                return None;
            };
            match neighbours.next() {
                None => return None,
                Some(y) => {
                    self.y = y;
                    self.cases = self.hops.of(Pair::of(self.x, y));
                }
            }
        }
    }
}
