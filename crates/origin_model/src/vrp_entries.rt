//! The payloads of a set one after another.
ghost use Rattle.std.specs.Map.Iter.{deref};
ghost use Rattle.std.specs.Iterator.{YieldsFirstBy, item_count};

use crate::Vrp;
use std::collections::btree_set;
use std::marker::Model;

/// The payloads of a set that are still to come, in their order.
#[derive(Drop)]
pub struct VrpEntries<'a> {
    pub(crate) inner: btree_set::Iter<'a, Vrp>,
}

impl<'a> Model for VrpEntries<'a> {
    ghost use Rattle.std.specs.Prelude.{List};
    ghost use Rattle.origin_model.specs.Vrp.{Payload};

    ghost Value = { List Payload };

    ghost view = { λ e. e.inner };
}

impl<'a> Iterator for VrpEntries<'a> {
    type Item = &'a Vrp;

    ghost next_gives = { YieldsFirstBy deref (λ left. left) };

    ghost remaining = { item_count (λ left. left) };

    fn next(&mut self) -> Option<&'a Vrp> {
        self.inner.next()
    }
}
