//! The hops of one AS, one after another.
ghost use Rattle.std.specs.Iterator.{YieldsFirstBy, item_count};
ghost use Rattle.hop_index.specs.Through.{ends_left};

use crate::listed_through::ListedThrough;
use crate::loose_through::LooseThrough;

// What is still to come, of lists or of chains that aren't in lists.
#[derive(Drop)]
pub(crate) enum Left<'a> {
    Listed(ListedThrough<'a>),
    Loose(LooseThrough<'a>),
}

/// The other ends of one AS's hops: each AS with a case that has a hop to it, by rising AS and then by rising case.
#[derive(Drop)]
pub struct Through<'a> {
    pub(crate) left: Left<'a>,
}

impl<'a> Iterator for Through<'a> {
    type Item = (u32, usize);

    ghost next_gives = { YieldsFirstBy (λ end. end) ends_left };

    ghost remaining = { item_count ends_left };

    fn next(&mut self) -> Option<(u32, usize)> {
        match &mut self.left {
            Left::Listed(ends) => ends.next(),
            Left::Loose(ends) => ends.next(),
        }
    }
}
