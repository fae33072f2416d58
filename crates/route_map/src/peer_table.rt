//! The routes of one peer, taken out of a map.
ghost use Rattle.std.specs.Prelude.{◌≡◌, ◌++◌, length, OnOk};
ghost use Rattle.std.specs.List.Sorted.{IsStrictlySortedBy};
ghost use Rattle.std.specs.Map.{keys_of, values_of};
ghost use Rattle.path_model.specs.Key.{key_cmp};

use crate::peer_iter::PeerIter;
use crate::peer_routes::PeerRoutes;
use av_base::NoMemory;
use path_model::Peer;
use std::marker::Model;

/// The routes of one peer that are in no map any more, each with its value. They take the memory that they took there, but for the peer's
/// slot, until the table goes.
#[derive(Drop)]
pub struct PeerTable<V> {
    pub(crate) peer: Peer,
    // none where the peer has no routes
    pub(crate) routes: Option<PeerRoutes<V>>,
}

impl<V> Model for PeerTable<V> {
    ghost use Rattle.std.specs.Prelude.{List};
    ghost use Rattle.path_model.specs.declared.key.Key.{Key};
    ghost use Rattle.route_map.specs.Flat.{of_peer, routes_or};
    ghost use Rattle.route_map.specs.Held.{AreTaken};

    ghost Value = { List (Key × V) };

    ghost view = { λ t. of_peer t.peer (routes_or t.routes) };

    ghost invariant = { λ t. AreTaken (of_peer t.peer (routes_or t.routes)) };
}

impl<V> PeerTable<V> {
    /// How many routes there are.
    pub fn len(&self) -> usize
        ensures { result ≡ length self.now }
    {
        match &self.routes {
            None => 0,
            Some(routes) => routes.len(),
        }
    }

    /// The routes, in key order.
    pub fn iter(&self) -> PeerIter<'_, V>
        ensures whole { result ≡ self.now }
        ensures in_order { IsStrictlySortedBy key_cmp (keys_of self.now) }
    {
        match &self.routes {
            None => PeerIter {
                peer: self.peer,
                routes: None,
            },
            Some(routes) => routes.iter_of(self.peer),
        }
    }
}

impl<V: Copy> PeerTable<V> {
    /// Appends all values, in key order. No key is made: it takes a step for each chunk of at most 512 routes and one copy of its values, but
    /// where some of the routes have a path identifier and others none, a step for each route. It takes memory only where `into` has no
    /// room. Where there was none, some values may have been appended.
    pub fn push_values(&self, into: &mut Vec<V>) -> Result<(), NoMemory>
        ensures { OnOk result (into.new.items ≡ into.old.items ++ values_of self.now) }
    {
        match &self.routes {
            None => Ok(()),
            Some(routes) => routes.push_values(into),
        }
    }
}
