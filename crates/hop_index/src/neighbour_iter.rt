//! The neighbours of one AS, one after another.
ghost use Rattle.std.specs.Iterator.{YieldsFirst, item_count};

use crate::loose_neighbours::LooseNeighbours;
use crate::number_iter::NumberIter;
use std::marker::Model;

// What is still to come, of lists, none where the AS has no entry, or of chains that aren't in lists.
#[derive(Drop)]
pub(crate) enum Left<'a> {
    Listed(Option<NumberIter<'a>>),
    Loose(LooseNeighbours<'a>),
}

/// The neighbours of one AS: each AS with a case that has a hop to it, rising, each once; a contract sees those that are still to come.
#[derive(Drop)]
pub struct Neighbours<'a> {
    pub(crate) left: Left<'a>,
}

impl<'a> Model for Neighbours<'a> {
    ghost use Rattle.std.specs.Prelude.{List, ℕ};
    ghost use Rattle.hop_index.specs.Neighbours.{neighbours_left};

    ghost Value = { List ℕ };

    ghost view = { λ n. neighbours_left n.left };
}

impl<'a> Iterator for Neighbours<'a> {
    type Item = u32;

    ghost next_gives = { YieldsFirst (λ left. left) };

    ghost remaining = { item_count (λ left. left) };

    fn next(&mut self) -> Option<u32> {
        match &mut self.left {
            Left::Listed(None) => None,
            Left::Listed(Some(numbers)) => numbers.next(),
            Left::Loose(neighbours) => neighbours.next(),
        }
    }
}
