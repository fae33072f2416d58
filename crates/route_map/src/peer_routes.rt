//! The values of one peer's routes.
ghost use Rattle.std.specs.Prelude.{◌≡◌, ◌↔◌, ◌<◌, ◌^◌, ◌++◌, [], length, IfNone, IfOk, IfSome, OnOk, OnErr, IsTrue, option_copied};
ghost use Rattle.std.specs.BTreeMap.{insert_entry, is_at};
ghost use Rattle.std.specs.Map.{lookup, remove_entry, values_of};
ghost use Rattle.path_model.specs.Key.{nlri_cmp};
ghost use Rattle.route_map.specs.Flat.{of_peer};
ghost use Rattle.route_map.specs.Merged.{HasNlri};

use crate::boxed_routes::BoxedRoutes;
use crate::nlri_iter::NlriIter;
use crate::peer_iter::PeerIter;
use crate::plain_routes::PlainRoutes;
use av_base::NoMemory;
use path_model::{Nlri, Peer, Prefix};
use std::alloc::Global;
use std::marker::Model;

// The value of each prefix, or prefix and path identifier, that one peer has a route to.
#[derive(Drop)]
pub(crate) struct PeerRoutes<V> {
    // those without a path identifier, and those with one
    plain: PlainRoutes<V>,
    identified: BoxedRoutes<V>,
}

impl<V> Model for PeerRoutes<V> {
    ghost use Rattle.std.specs.Prelude.{List};
    ghost use Rattle.path_model.specs.declared.nlri.Nlri.{Nlri};
    ghost use Rattle.route_map.specs.Merged.{merged, AreTwo};

    ghost Value = { List (Nlri × V) };

    ghost view = { λ r. merged r.plain r.identified };

    ghost invariant = { λ r. AreTwo r.plain r.identified };
}

impl<V> PeerRoutes<V> {
    // None at all. It takes no memory.
    pub(crate) fn new(alloc: Global) -> PeerRoutes<V>
        ensures { result ≡ [] }
    {
        PeerRoutes {
            plain: PlainRoutes::new(alloc),
            identified: BoxedRoutes::new(alloc),
        }
    }

    // Whether there are none.
    pub(crate) fn is_empty(&self) -> bool
        ensures { IsTrue result ↔ (self.now ≡ []) }
    {
        self.plain.is_empty() && self.identified.is_empty()
    }

    // How many there are.
    pub(crate) fn len(&self) -> usize
        requires { length self.now < 2 ^ 63 }
        ensures { result ≡ length self.now }
    {
        self.plain.len() + self.identified.len()
    }

    // The value of a prefix with its path identifier, if it has one.
    pub(crate) fn get(&self, nlri: &Nlri) -> Option<&V>
        ensures { option_copied result ≡ lookup (is_at (nlri_cmp nlri.now)) self.now }
    {
        match nlri.path {
            None => self.plain.get(&nlri.prefix),
            Some(path) => self.identified.get(&nlri.prefix, path),
        }
    }

    // One of them: `None` exactly where there are none. It takes no search.
    pub(crate) fn one(&self) -> Option<Nlri>
        ensures none { IfNone result (self.now ≡ []) }
        ensures some { IfSome result (HasNlri self.now) }
    {
        if let Some(nlri) = self.plain.last() {
            return Some(nlri);
        }
        match self.identified.last() {
            None => None,
            Some(nlri) => Some(nlri),
        }
    }

    // The value of the last one of a prefix's family, without a path identifier. Nothing is promised of it.
    #[inline(always)]
    pub(crate) fn latest(&self, prefix: &Prefix) -> Option<&V> {
        self.plain.latest(prefix)
    }

    // All in order.
    pub(crate) fn nlris(&self) -> NlriIter<'_, V>
        ensures { result ≡ self.now }
    {
        NlriIter::of(self.plain.iter(), self.identified.iter())
    }

    // All in order, as routes of this peer.
    pub(crate) fn iter_of(&self, peer: Peer) -> PeerIter<'_, V>
        ensures { result ≡ of_peer peer self.now }
    {
        PeerIter {
            peer,
            routes: Some(NlriIter::of(self.plain.iter(), self.identified.iter())),
        }
    }
}

impl<V: Copy> PeerRoutes<V> {
    // Appends all values, in order: by the slices of the chunks where none has a path identifier or each has one, and else one by one. Where
    // there was no memory, some may have been appended.
    pub(crate) fn push_values(&self, into: &mut Vec<V>) -> Result<(), NoMemory>
        ensures { OnOk result (into.new.items ≡ into.old.items ++ values_of self.now) }
    {
        if self.identified.is_empty() {
            return self.plain.push_values(into);
        }
        if self.plain.is_empty() {
            return self.identified.push_values(into);
        }
        self.push_each(into)
    }

    // The same, one by one.
    fn push_each(&self, into: &mut Vec<V>) -> Result<(), NoMemory>
        ensures { OnOk result (into.new.items ≡ into.old.items ++ values_of self.now) }
    {
        for (_, value) in self.nlris() {
            into.push(*value)?;
        }
        Ok(())
    }

    // Gives a prefix with its path identifier, if it has one, a value, and answers the one that it had. Where there was no memory nothing
    // changed.
    #[inline(always)]
    pub(crate) fn insert(&mut self, nlri: &Nlri, value: V) -> Result<Option<V>, NoMemory>
        ensures before { IfOk result (λ v. v ≡ lookup (is_at (nlri_cmp nlri.now)) self.old) }
        ensures put { OnOk result (self.new ≡ insert_entry nlri_cmp self.old nlri.now value) }
        ensures same { OnErr result (self.new ≡ self.old) }
    {
        match nlri.path {
            None => Ok(self.plain.insert(&nlri.prefix, value)?),
            Some(path) => Ok(self.identified.insert(&nlri.prefix, path, value)?),
        }
    }
}

impl<V: Drop> PeerRoutes<V> {
    // Takes the value of a prefix with its path identifier, if it has one, out, where it has a value. It takes no memory.
    pub(crate) fn remove(&mut self, nlri: &Nlri) -> Option<V>
        ensures before { result ≡ lookup (is_at (nlri_cmp nlri.now)) self.old }
        ensures removed { self.new ≡ remove_entry (is_at (nlri_cmp nlri.now)) self.old }
    {
        match nlri.path {
            None => self.plain.remove(&nlri.prefix),
            Some(path) => self.identified.remove(&nlri.prefix, path),
        }
    }
}
