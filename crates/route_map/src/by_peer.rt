//! The routes of each peer.
ghost use Rattle.std.specs.Prelude.{◌≡◌, ◌↔◌, [], ◌∷◌, ◌++◌, None, Some, IfOk, IsTrue, IsSome, OnOk, OnErr, option_copied};
ghost use Rattle.std.specs.BTreeMap.{insert_entry, is_at};
ghost use Rattle.std.specs.List.Sorted.{IsStrictlySortedBy};
ghost use Rattle.std.specs.Map.{keys_of, lookup, remove_entry, set_value};
ghost use Rattle.path_model.specs.Key.{key_cmp, nlri_of, peer_cmp};
ghost use Rattle.route_map.specs.Flat.{flat, HaveRoutes};
ghost use Rattle.route_map.specs.Held.{found, value_at, without, Puts, TakesOut};
ghost use Rattle.route_map.specs.Slots.{resolved, IsInverse};

use crate::hints::Hints;
use crate::iter::Iter;
use crate::peer_routes::PeerRoutes;
use crate::peers::Peers;
use av_base::NoMemory;
use path_model::{Key, Peer};
use std::alloc::Global;
use std::collections::BTreeMap;
use std::marker::Model;
use std::mem;

// The routes of each peer, in slots, by the peers' order. Most often a peer is found by its hint alone.
#[derive(Drop)]
pub(crate) struct ByPeer<V> {
    // the slot of each peer
    order: BTreeMap<Peer, usize>,
    // the peer of each slot
    peers: Vec<Peer>,
    // the routes of each slot's peer
    routes: Vec<PeerRoutes<V>>,
    // the slots to look at first
    hints: Hints,
}

impl<V> Model for ByPeer<V> {
    ghost use Rattle.std.specs.Prelude.{List, []};
    ghost use Rattle.path_model.specs.declared.nlri.Nlri.{Nlri};
    ghost use Rattle.path_model.specs.declared.peer.Peer.{Peer};
    ghost use Rattle.route_map.specs.Slots.{resolved, AreSlots};

    ghost Value = { List (Peer × List (Nlri × V)) };

    ghost view = { λ m. resolved [] m.order.entries m.routes.items };

    ghost invariant = { λ m. AreSlots m.order.entries m.peers.items m.routes.items };
}

impl<V> ByPeer<V> {
    // No peers. It takes no memory.
    pub(crate) fn new(alloc: Global) -> ByPeer<V>
        ensures { result ≡ [] }
    {
        ByPeer {
            order: BTreeMap::new(alloc),
            peers: Vec::new(alloc),
            routes: Vec::new(alloc),
            hints: Hints::new(alloc),
        }
    }

    // How many peers there are.
    pub(crate) fn len(&self) -> usize
        ensures { IsStrictlySortedBy peer_cmp (keys_of self.now) }
    {
        self.order.len()
    }

    // The routes of a peer.
    pub(crate) fn get(&self, peer: &Peer) -> Option<&PeerRoutes<V>>
        ensures { option_copied result ≡ found self.now peer.now }
    {
        match slot_of(&self.order, &self.peers, &self.hints, peer) {
            None => None,
            Some(slot) => Some(&self.routes[slot]),
        }
    }

    // The value of a peer's last route of a key's family, where the peer is found by its hint. Nothing is promised of it.
    #[inline(always)]
    pub(crate) fn latest(&self, key: &Key) -> Option<&V> {
        let hint = self.hints.slot(&key.peer);
        match self.peers.get(hint) {
            None => None,
            Some(held) => {
                if *held != key.peer {
                    return None;
                }
                self.routes.get(hint)?.latest(&key.prefix)
            }
        }
    }

    // The peers, each with its routes.
    pub(crate) fn iter_peers(&self) -> Peers<'_, V>
        ensures { result ≡ self.now }
    {
        Peers {
            others: self.order.iter(),
            routes: self.routes.as_slice(),
        }
    }

    // All routes, in key order.
    pub(crate) fn iter(&self) -> Iter<'_, V>
        ensures { result ≡ flat self.now }
    {
        Iter {
            first: None,
            others: self.order.iter(),
            routes: self.routes.as_slice(),
        }
    }
}

impl<V: Copy> ByPeer<V> {
    // Gives a route a value among those of its peer, and answers the one that it had. Where there was no memory, nothing changed.
    #[inline(always)]
    pub(crate) fn put(&mut self, alloc: Global, key: &Key, value: V) -> Result<Option<V>, NoMemory>
        ensures before { IfOk result (λ v. v ≡ value_at self.old key.now) }
        ensures put { OnOk result (Puts self.old key.now value self.new) }
        ensures same { OnErr result (self.new ≡ self.old) }
    {
        let _order = self.order.len();
        match slot_of(&self.order, &self.peers, &self.hints, &key.peer) {
            Some(slot) => self.routes[slot].insert(&key.nlri(), value),
            None => {
                self.put_first(alloc, key, value)?;
                Ok(None)
            }
        }
    }

    // Gives the first route of a peer a value.
    #[inline(never)]
    fn put_first(&mut self, alloc: Global, key: &Key, value: V) -> Result<(), NoMemory>
        requires { found self.old key.now.peer ≡ None }
        ensures put { OnOk result (self.new
            ≡ insert_entry peer_cmp self.old key.now.peer ((nlri_of key.now, value) ∷ [])) }
        ensures same { OnErr result (self.new ≡ self.old) }
    {
        let mut routes = PeerRoutes::new(alloc);
        routes.insert(&key.nlri(), value)?;
        self.add(alloc, key.peer, routes)
    }

    // One peer more, in a slot behind the others. Where there is no memory for it in the end, it goes again.
    fn add(&mut self, alloc: Global, peer: Peer, routes: PeerRoutes<V>) -> Result<(), NoMemory>
        requires { found self.old peer ≡ None }
        ensures added { OnOk result (self.new ≡ insert_entry peer_cmp self.old peer routes) }
        ensures same { OnErr result (self.new ≡ self.old) }
    {
        let _order = self.order.len();
        let slot = self.peers.len();
        self.peers.push(peer)?;
        match push(&mut self.routes, routes) {
            Err(_) => {
                self.peers.pop();
                Err(NoMemory)
            }
            Ok(()) => match enter(&mut self.order, peer, slot) {
                Err(_) => {
                    self.peers.pop();
                    self.routes.pop();
                    Err(NoMemory)
                }
                Ok(()) => {
                    self.hints.make_room(alloc);
                    self.hints.set(&peer, slot);
                    Ok(())
                }
            },
        }
    }
}

impl<V: Drop> ByPeer<V> {
    // Takes a route out from those of its peer, which goes with its last route, and answers what the route had.
    pub(crate) fn take(&mut self, key: &Key) -> Option<V>
        ensures before { result ≡ lookup (is_at (key_cmp key.now)) (flat self.old) }
        ensures removed { flat self.new ≡ without key.now (flat self.old) }
        ensures kept { HaveRoutes self.old → HaveRoutes self.new }
    {
        let _peers = self.len();
        let (before, emptied) = self.take_out(key);
        if emptied {
            self.remove(&key.peer);
        }
        before
    }

    // Takes a route out from those of its peer, and answers what it had, and whether the peer stands there without routes now.
    fn take_out(&mut self, key: &Key) -> (Option<V>, bool)
        ensures before { result.0 ≡ value_at self.old key.now }
        ensures taken { TakesOut self.old key.now self.new }
        ensures emptied { IsTrue result.1 ↔ (found self.new key.now.peer ≡ Some []) }
    {
        let _order = self.order.len();
        match slot_of(&self.order, &self.peers, &self.hints, &key.peer) {
            None => (None, false),
            Some(slot) => {
                let before = self.routes[slot].remove(&key.nlri());
                (before, self.routes[slot].is_empty())
            }
        }
    }

    // Takes a peer out with its routes, if it is there, and answers them. What lies in the last slot gets its slot, so that there is no gap.
    #[inline(never)]
    pub(crate) fn remove(&mut self, peer: &Peer) -> Option<PeerRoutes<V>>
        ensures taken { result ≡ found self.old peer.now }
        ensures removed { self.new ≡ remove_entry (is_at (peer_cmp peer.now)) self.old }
    {
        let _order = self.order.len();
        let slot = slot_of(&self.order, &self.peers, &self.hints, peer)?;
        self.order.remove(peer);
        let last = self.peers.pop()?;
        let routes = self.routes.pop()?;
        if slot < self.peers.len() {
            self.peers[slot] = last;
            let taken = mem::replace(&mut self.routes[slot], routes);
            point(&mut self.order, &last, slot);
            self.hints.set(&last, slot);
            return Some(taken);
        }
        Some(routes)
    }
}

// The slot of a peer.
#[inline(always)]
fn slot_of(
    order: &BTreeMap<Peer, usize>,
    peers: &[Peer],
    hints: &Hints,
    peer: &Peer,
) -> Option<usize>
    requires { IsInverse order.now.entries peers.now }
    ensures { result ≡ lookup (is_at (peer_cmp peer.now)) order.now.entries }
{
    let hint = hints.slot(peer);
    if let Some(held) = peers.get(hint) {
        if held == peer {
            return Some(hint);
        }
    }
    look_up(order, peer)
}

// The slot of a peer, where its hint is of another one.
#[inline(never)]
fn look_up(order: &BTreeMap<Peer, usize>, peer: &Peer) -> Option<usize>
    ensures { result ≡ lookup (is_at (peer_cmp peer.now)) order.now.entries }
{
    match order.get(peer) {
        None => None,
        Some(slot) => Some(*slot),
    }
}

// One peer's routes more in the list, at its end.
fn push<V: Drop>(list: &mut Vec<PeerRoutes<V>>, routes: PeerRoutes<V>) -> Result<(), NoMemory>
    ensures pushed { OnOk result (list.new.items ≡ list.old.items ++ routes ∷ []) }
    ensures same { OnErr result (list.new.items ≡ list.old.items) }
{
    list.push(routes)?;
    Ok(())
}

// One peer more in the order.
fn enter(order: &mut BTreeMap<Peer, usize>, peer: Peer, slot: usize) -> Result<(), NoMemory>
    ensures entered { OnOk result (order.new.entries
        ≡ insert_entry peer_cmp order.old.entries peer slot) }
    ensures same { OnErr result (order.new.entries ≡ order.old.entries) }
{
    order.insert(peer, slot)?;
    Ok(())
}

// Gives a peer that is there another slot.
fn point(order: &mut BTreeMap<Peer, usize>, peer: &Peer, slot: usize)
    ensures { IsSome (lookup (is_at (peer_cmp peer.now)) order.old.entries)
        → order.new.entries ≡ set_value (is_at (peer_cmp peer.now)) order.old.entries slot }
{
    if let Some(place) = order.get_mut(peer) {
        *place = slot;
    }
}
