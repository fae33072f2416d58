//! The routes of one peer with a path identifier, where it may have none, one after another.
ghost use Rattle.std.specs.Iterator.{YieldsFirstBy, item_count};

use crate::identified_iter::IdentifiedIter;
use path_model::Nlri;
use std::marker::Model;

// The prefixes that one peer has a route to with a path identifier, in order, each with its value.
#[derive(Drop)]
pub(crate) struct BoxedIter<'a, V> {
    // none where the peer has no such routes
    pub(crate) routes: Option<IdentifiedIter<'a, V>>,
}

impl<'a, V> Model for BoxedIter<'a, V> {
    ghost use Rattle.std.specs.Prelude.{List};
    ghost use Rattle.path_model.specs.declared.nlri.Nlri.{Nlri};
    ghost use Rattle.route_map.specs.Flat.{routes_or};

    ghost Value = { List (Nlri × V) };

    ghost view = { λ i. routes_or i.routes };
}

impl<'a, V> Iterator for BoxedIter<'a, V> {
    type Item = (Nlri, &'a V);

    ghost next_gives = { YieldsFirstBy (λ e. (e.0, e.1.now)) (λ left. left) };

    ghost remaining = { item_count (λ left. left) };

    fn next(&mut self) -> Option<(Nlri, &'a V)> {
        match &mut self.routes {
            None => None,
            Some(routes) => routes.next(),
        }
    }
}
