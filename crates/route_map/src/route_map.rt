//! The values of all routes.
ghost use Rattle.std.specs.Prelude.{◌≡◌, ◌↔◌, ◌<◌, ◌^◌, [], Some, length, IfSome, IfNone, IfOk, OnOk, OnErr, IsTrue, option_copied, not};
ghost use Rattle.std.specs.BTreeMap.{insert_entry, is_at};
ghost use Rattle.std.specs.List.{filter};
ghost use Rattle.std.specs.List.Sorted.{IsStrictlySortedBy};
ghost use Rattle.std.specs.Map.{keys_of, lookup, remove_entry};
ghost use Rattle.path_model.specs.Key.{key_cmp, peer_cmp};
ghost use Rattle.path_model.specs.Routes.{is_of_peer};
ghost use Rattle.route_map.specs.Flat.{flat, HaveRoutes};
ghost use Rattle.route_map.specs.Held.{found, value_at, without, Puts, TakesOut};
ghost use Rattle.route_map.specs.OfPeer.{HasNoRouteOf, IsRouteOf};
ghost use Rattle.route_map.specs.Updates.{Gets, Loses};

use crate::by_peer::ByPeer;
use crate::iter::Iter;
use crate::peer_table::PeerTable;
use crate::peers::Peers;
use av_base::NoMemory;
use path_model::{Key, Peer};
use std::alloc::Global;
use std::marker::Model;

// How many routes there may be: their number is that of a `Vec`'s elements at most.
const MOST_ROUTES: usize = 0x7fff_ffff_ffff_ffff;

/// A value for each route. With values of 4 bytes an IPv4 route takes 9 bytes and an IPv6 route 28, with a path identifier 16 and 36, where
/// the routes of a peer come in order. Else they stand in chunks of at most 512 that are less full, and two chunks side by side become one
/// when routes go: there is room for at most four times the routes, and for a chunk more of each kind. The first route of a peer takes 460
/// bytes in the whole program (IPv6: 610), and with a path identifier 650 (810); the first of all takes 2 KB more. To find a route takes two
/// searches among the routes of its peer. Of some hundreds of peers most are found at once, and of more many take a look-up among all peers.
#[derive(Drop)]
pub struct RouteMap<V> {
    alloc: Global,
    // a peer without routes isn't there, as the invariant says
    peers: ByPeer<V>,
    // how many routes there are
    len: usize,
}

impl<V> Model for RouteMap<V> {
    ghost use Rattle.std.specs.Prelude.{List};
    ghost use Rattle.path_model.specs.declared.key.Key.{Key};
    ghost use Rattle.route_map.specs.Flat.{flat, HaveRoutes};
    ghost use Rattle.route_map.specs.Held.{AreHeld};

    ghost Value = { List (Key × V) };

    ghost view = { λ m. flat m.peers };

    ghost invariant = { λ m. AreHeld m.peers m.len };
}

impl<V> RouteMap<V> {
    /// A map of no routes. It takes no memory.
    pub fn new(alloc: Global) -> RouteMap<V>
        ensures { result ≡ [] }
    {
        RouteMap {
            alloc,
            peers: ByPeer::new(alloc),
            len: 0,
        }
    }

    /// How many routes have a value.
    pub fn len(&self) -> usize
        ensures len { result ≡ length self.now }
        ensures few { result < 2 ^ 63 }
        ensures in_order { IsStrictlySortedBy key_cmp (keys_of self.now) }
    {
        self.len
    }

    /// The value of a route; `None` exactly where it has none.
    pub fn get(&self, key: &Key) -> Option<&V>
        ensures { option_copied result ≡ lookup (is_at (key_cmp key.now)) self.now }
    {
        let _peers = self.peers.len();
        match self.peers.get(&key.peer) {
            None => None,
            Some(routes) => routes.get(&key.nlri()),
        }
    }

    /// The value of the last route without a path identifier that the key's peer has in its family, if that is at hand: where routes come in order, of the one that came
    /// just before. It is a hint, and nothing is promised of it.
    #[inline(always)]
    pub fn latest(&self, key: &Key) -> Option<&V> {
        self.peers.latest(key)
    }

    /// All routes, in key order.
    pub fn iter(&self) -> Iter<'_, V>
        ensures whole { result ≡ self.now }
        ensures few { length result < 2 ^ 63 }
        ensures in_order { IsStrictlySortedBy key_cmp (keys_of self.now) }
    {
        self.peers.iter()
    }

    /// All routes by their peers, in key order.
    pub fn by_peer(&self) -> Peers<'_, V>
        ensures whole { flat result ≡ self.now }
        ensures few { length (flat result) < 2 ^ 63 }
        ensures in_order { IsStrictlySortedBy key_cmp (keys_of (flat result)) }
        ensures peers { IsStrictlySortedBy peer_cmp (keys_of result) }
        ensures some { HaveRoutes result }
    {
        let _peers = self.peers.len();
        self.peers.iter_peers()
    }

    /// Some route of one peer, and it isn't said which; `None` exactly where it has none. It is the last one of a family, which takes the
    /// least time to go: to withdraw this one over and over takes all routes of the peer out at the cost of finding the peer each.
    pub fn one_of(&self, peer: &Peer) -> Option<Key>
        ensures none { IfNone result (HasNoRouteOf self.now peer.now) }
        ensures some { IfSome result (IsRouteOf self.now peer.now) }
    {
        let _peers = self.peers.len();
        match self.peers.get(peer) {
            None => None,
            Some(routes) => match routes.one() {
                None => None,
                Some(nlri) => Some(Key::new(*peer, nlri)),
            },
        }
    }
}

impl<V: Copy> RouteMap<V> {
    /// Gives a route a value, and answers the one that it had. Where there was no memory, nothing changed.
    pub fn insert(&mut self, key: Key, value: V) -> Result<Option<V>, NoMemory>
        ensures before { IfOk result (λ v. v ≡ lookup (is_at (key_cmp key)) self.old) }
        ensures inserted { OnOk result (self.new ≡ insert_entry key_cmp self.old key value) }
        ensures updates { OnOk result (Gets self.old key value self.new) }
        ensures same { OnErr result (self.new ≡ self.old) }
    {
        if self.len == MOST_ROUTES {
            return Err(NoMemory);
        }
        let _peers = self.peers.len();
        let before = self.peers.put(self.alloc, &key, value)?;
        self.len += usize::from(before.is_none());
        Ok(before)
    }
}

impl<V: Drop> RouteMap<V> {
    /// Takes all routes of a peer out, and answers them. It takes no memory, and however many they are the time of a few searches among the
    /// peers: to let the answer go costs what its routes cost. The peer's slot stays, as where `remove` takes its last route out.
    pub fn take_peer(&mut self, peer: &Peer) -> PeerTable<V>
        ensures taken { result ≡ filter (λ e. is_of_peer peer.now e.0) self.old }
        ensures left { self.new ≡ filter (λ e. not (is_of_peer peer.now e.0)) self.old }
    {
        let _peers = self.peers.len();
        let taken = PeerTable {
            peer: *peer,
            routes: self.peers.remove(peer),
        };
        self.len -= taken.len();
        taken
    }

    /// Takes the value of a route out, where it has one, and answers it. It takes no memory, and what the last route of a peer took is
    /// given back, but for its slot: some 180 bytes for each of the most peers that there were, and as much again as room, stay.
    pub fn remove(&mut self, key: &Key) -> Option<V>
        ensures before { result ≡ lookup (is_at (key_cmp key.now)) self.old }
        ensures removed { self.new ≡ remove_entry (is_at (key_cmp key.now)) self.old }
        ensures updates { Loses self.old key.now self.new }
    {
        let before = self.peers.take(key);
        self.len -= usize::from(before.is_some());
        before
    }
}
