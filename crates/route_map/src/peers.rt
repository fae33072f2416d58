//! The peers, one after another, each with its routes.
ghost use Rattle.std.specs.Iterator.{YieldsFirstBy, item_count};
ghost use Rattle.route_map.specs.Flat.{routes_or};

use crate::nlri_iter::NlriIter;
use crate::peer_routes::PeerRoutes;
use path_model::Peer;
use std::collections::btree_map;
use std::marker::Model;

/// The peers in their order, each with its routes in order by what it announced. Each peer takes a step.
#[derive(Drop)]
pub struct Peers<'a, V> {
    // the slots of the peers that are left
    pub(crate) others: btree_map::Iter<'a, Peer, usize>,
    // the routes of each slot's peer
    pub(crate) routes: &'a [PeerRoutes<V>],
}

impl<'a, V> Model for Peers<'a, V> {
    ghost use Rattle.std.specs.Prelude.{List, []};
    ghost use Rattle.path_model.specs.declared.nlri.Nlri.{Nlri};
    ghost use Rattle.path_model.specs.declared.peer.Peer.{Peer};
    ghost use Rattle.route_map.specs.Slots.{resolved};

    ghost Value = { List (Peer × List (Nlri × V)) };

    ghost view = { λ p. resolved [] p.others p.routes.now };
}

impl<'a, V> Iterator for Peers<'a, V> {
    type Item = (Peer, Option<NlriIter<'a, V>>);

    ghost next_gives = { YieldsFirstBy (λ e. (e.0, routes_or e.1)) (λ left. left) };

    ghost remaining = { item_count (λ left. left) };

    fn next(&mut self) -> Option<(Peer, Option<NlriIter<'a, V>>)> {
        match self.others.next() {
            None => None,
            Some((peer, slot)) => match self.routes.get(*slot) {
                None => Some((*peer, None)),
                Some(routes) => Some((*peer, Some(routes.nlris()))),
            },
        }
    }
}
