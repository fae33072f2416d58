//! The numbers of a set, one after another.
ghost use Rattle.std.specs.Iterator.{YieldsFirst, item_count};

use std::marker::Model;
use std::slice;

// What is still to come of a set.
#[derive(Drop)]
pub(crate) enum Left<'a> {
    End,
    Last(u32),
    LastTwo(u32, u32),
    LastThree(u32, u32, u32),
    OfListed(slice::Iter<'a, u32>),
    OfMany(sorted_map::Iter<'a, u32, ()>),
}

/// The numbers of a set that are still to come, rising.
#[derive(Drop)]
pub struct NumberIter<'a> {
    pub(crate) left: Left<'a>,
}

impl<'a> Model for NumberIter<'a> {
    ghost use Rattle.std.specs.Prelude.{List, ℕ};
    ghost use Rattle.hop_index.specs.NumberIter.{numbers_left};

    ghost Value = { List ℕ };

    ghost view = { λ i. numbers_left i.left };
}

impl<'a> Iterator for NumberIter<'a> {
    type Item = u32;

    ghost next_gives = { YieldsFirst (λ left. left) };

    ghost remaining = { item_count (λ left. left) };

    fn next(&mut self) -> Option<u32> {
        let (first, left) = match &mut self.left {
            Left::End => return None,
            Left::Last(a) => (*a, Left::End),
            Left::LastTwo(a, b) => (*a, Left::Last(*b)),
            Left::LastThree(a, b, c) => (*a, Left::LastTwo(*b, *c)),
            Left::OfListed(numbers) => return numbers.next().copied(),
            Left::OfMany(numbers) => match numbers.next() {
                None => return None,
                Some((number, _)) => return Some(*number),
            },
        };
        self.left = left;
        Some(first)
    }
}
