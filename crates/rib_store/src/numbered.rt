//! The routes with the numbers of their cases.
ghost use Rattle.std.specs.Prelude.{◌<◌, ◌^◌, length};
ghost use Rattle.std.specs.Iterator.{YieldsFirstBy, item_count};
ghost use Rattle.rib_store.specs.Numbered.{numbered_left, AreNumbered};

use crate::RibStore;
use path_model::Key;
use route_map::Iter;

/// One item for each route, its key and the number of its case ([`RibStore::case`]), in key order: routes that have one number share all that
/// is made of their path and their peer's AS. It judges nothing, and takes no memory.
#[derive(Drop)]
pub struct NumberedRoutes<'a> {
    // the routes that are left
    pub(crate) rest: Iter<'a, u32>,
}

impl<'a> Iterator for NumberedRoutes<'a> {
    type Item = (Key, u32);

    ghost next_gives = { YieldsFirstBy (λ e. e) numbered_left };

    ghost remaining = { item_count numbered_left };

    #[inline(always)]
    fn next(&mut self) -> Option<(Key, u32)> {
        match self.rest.next() {
            None => None,
            Some((key, number)) => Some((key, *number)),
        }
    }
}

impl RibStore {
    /// Each route's key with the number of its case, in key order. No number is above the most cases that there ever
    /// were at one time. It takes no memory, and judges nothing.
    pub fn numbered(&self) -> NumberedRoutes<'_>
        ensures routes { AreNumbered self.now.state self.now.cases (numbered_left result) }
        ensures few { length (numbered_left result) < 2 ^ 63 }
    {
        NumberedRoutes {
            rest: self.routing.routes.iter(),
        }
    }
}
