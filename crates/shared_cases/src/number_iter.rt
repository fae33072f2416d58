//! The numbers of a set of cases, one after another.
ghost use Rattle.std.specs.Iterator.{YieldsFirst, item_count};

use std::marker::Model;

// The case numbers of a set that are still to come, rising.
#[derive(Drop)]
pub(crate) struct NumberIter<'a> {
    pub(crate) numbers: hop_index::NumberIter<'a>,
}

impl<'a> Model for NumberIter<'a> {
    ghost use Rattle.std.specs.Prelude.{List, ℕ};

    ghost Value = { List ℕ };

    ghost view = { λ i. i.numbers };
}

impl<'a> Iterator for NumberIter<'a> {
    type Item = usize;

    ghost next_gives = { YieldsFirst (λ left. left) };

    ghost remaining = { item_count (λ left. left) };

    fn next(&mut self) -> Option<usize> {
        match self.numbers.next() {
            None => None,
            Some(number) => Some(number as usize),
        }
    }
}
