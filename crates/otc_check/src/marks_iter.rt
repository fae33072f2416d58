//! The marks one after another.
ghost use Rattle.std.specs.Iterator.{YieldsFirst, item_count};

use path_model::{Key, Otc};
use route_map::Iter;
use std::marker::Model;

/// The marks that are still to come, in key order. It takes no memory.
#[derive(Drop)]
pub struct MarksIter<'a> {
    pub(crate) rest: Iter<'a, Otc>,
}

impl<'a> Model for MarksIter<'a> {
    ghost use Rattle.std.specs.Prelude.{List};
    ghost use Rattle.path_model.specs.declared.key.Key.{Key as AnyKey};
    ghost use Rattle.path_model.specs.declared.otc.Otc.{Otc as AnyOtc};

    ghost Value = { List (AnyKey × AnyOtc) };

    ghost view = { λ i. i.rest };
}

impl<'a> Iterator for MarksIter<'a> {
    type Item = (Key, Otc);

    ghost next_gives = { YieldsFirst (λ left. left) };

    ghost remaining = { item_count (λ left. left) };

    fn next(&mut self) -> Option<(Key, Otc)> {
        match self.rest.next() {
            None => None,
            Some((key, otc)) => Some((key, *otc)),
        }
    }
}
