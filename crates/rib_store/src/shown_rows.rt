//! The routes as they stand.
ghost use Rattle.std.specs.Prelude.{◌<◌, ◌^◌, length};
ghost use Rattle.std.specs.Iterator.{YieldsFirstBy, item_count};
ghost use Rattle.rib_store.specs.Shown.{standing, AreShown};
ghost use Rattle.rib_store.specs.ShownLeft.{shown_left};

use crate::RibStore;
use crate::rib::Shown;
use path_model::{Key, Roles};
use route_map::Iter;
use shared_cases::SharedCases;

/// One item for each route, its key and the route as it stands, in key order. It judges nothing, and takes no memory; the role of each
/// peer's AS is looked up.
#[derive(Drop)]
pub struct ShownRows<'a> {
    // the routes that are left
    pub(crate) rest: Iter<'a, u32>,
    pub(crate) cases: &'a SharedCases,
    pub(crate) roles: &'a Roles,
}

impl<'a> Iterator for ShownRows<'a> {
    type Item = (Key, Shown<'a>);

    ghost next_gives = { YieldsFirstBy (λ e. (e.0, standing e.1)) shown_left };

    ghost remaining = { item_count shown_left };

    fn next(&mut self) -> Option<(Key, Shown<'a>)> {
        // each route has a case, so that none is passed over
        while let Some((key, number)) = self.rest.next() {
            if let Some(case) = self.cases.get(*number as usize) {
                let role = self.roles.of(key.peer.asn);
                return Some((key, Shown::of(case, role)));
            }
        }
        None
    }
}

impl RibStore {
    /// Each route as it stands, in key order: what [`RibStore::look`] answers of each key, without looking it up. It takes no memory.
    pub fn shown(&self) -> ShownRows<'_>
        ensures rows { AreShown self.now.state (shown_left result) }
        ensures few { length (shown_left result) < 2 ^ 63 }
    {
        ShownRows {
            rest: self.routing.routes.iter(),
            cases: &self.routing.cases,
            roles: &self.roles,
        }
    }
}
