//! The routes with their paths.
ghost use Rattle.std.specs.Iterator.{YieldsFirstBy, item_count};
ghost use Rattle.rib_store.specs.Trails.{trails_left};

use path_model::{Key, Trail};
use route_map::Iter;
use shared_cases::SharedCases;

/// One item for each route, its key and its path, in key order. It judges nothing, and takes no memory.
#[derive(Drop)]
pub struct Trails<'a> {
    // the routes that are left
    pub(crate) rest: Iter<'a, u32>,
    pub(crate) cases: &'a SharedCases,
}

impl<'a> Iterator for Trails<'a> {
    type Item = (Key, &'a Trail);

    ghost next_gives = { YieldsFirstBy (λ e. (e.0, e.1.now)) trails_left };

    ghost remaining = { item_count trails_left };

    fn next(&mut self) -> Option<(Key, &'a Trail)> {
        // each route has a case, so that none is passed over
        while let Some((key, number)) = self.rest.next() {
            if let Some(case) = self.cases.get(*number as usize) {
                return Some((key, case.trail));
            }
        }
        None
    }
}
