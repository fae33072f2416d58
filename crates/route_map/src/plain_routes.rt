//! The values of one peer's routes without a path identifier.
ghost use Rattle.std.specs.Prelude.{◌≡◌, ◌↔◌, ◌++◌, [], length, IfNone, IfOk, IfSome, OnOk, OnErr, IsTrue, option_copied};
ghost use Rattle.std.specs.Map.{values_of};
ghost use Rattle.route_map.specs.Merged.{plain, value_of, with_value, without_nlri, HasNlri};

use crate::ipv4_plain::Ipv4Plain;
use crate::ipv6_plain::Ipv6Plain;
use crate::plain_iter::PlainIter;
use av_base::NoMemory;
use path_model::{Addr, Nlri, Prefix};
use sorted_map::Sorted;
use std::alloc::Global;
use std::marker::Model;

// The value of each prefix that one peer has a route to.
#[derive(Drop)]
pub(crate) struct PlainRoutes<V> {
    // an IPv4 prefix takes 5 bytes, and an IPv6 prefix 24
    v4: Sorted<Ipv4Plain, V>,
    v6: Sorted<Ipv6Plain, V>,
}

impl<V> Model for PlainRoutes<V> {
    ghost use Rattle.std.specs.Prelude.{List, ◌++◌};
    ghost use Rattle.path_model.specs.declared.nlri.Nlri.{Nlri};
    ghost use Rattle.route_map.specs.Families.{AreByFamily};

    ghost Value = { List (Nlri × V) };

    ghost view = { λ r. r.v4 ++ r.v6 };

    ghost invariant = { λ r. AreByFamily r.v4 r.v6 };
}

impl<V> PlainRoutes<V> {
    // None at all. It takes no memory.
    pub(crate) fn new(alloc: Global) -> PlainRoutes<V>
        ensures { result ≡ [] }
    {
        PlainRoutes {
            v4: Sorted::new(alloc),
            v6: Sorted::new(alloc),
        }
    }

    // Whether there are none.
    pub(crate) fn is_empty(&self) -> bool
        ensures { IsTrue result ↔ (self.now ≡ []) }
    {
        self.v4.len() == 0 && self.v6.len() == 0
    }

    // How many there are.
    pub(crate) fn len(&self) -> usize
        ensures { result ≡ length self.now }
    {
        self.v4.len() + self.v6.len()
    }

    // The value of a prefix.
    pub(crate) fn get(&self, prefix: &Prefix) -> Option<&V>
        ensures { option_copied result ≡ value_of self.now (plain prefix.now) }
    {
        match Ipv4Plain::of(prefix) {
            Some(subnet) => self.v4.get(&subnet),
            None => self.v6.get(&Ipv6Plain::of(prefix)),
        }
    }

    // One of them: `None` exactly where there are none. It takes no search.
    pub(crate) fn last(&self) -> Option<Nlri>
        ensures none { IfNone result (self.now ≡ []) }
        ensures some { IfSome result (HasNlri self.now) }
    {
        if let Some((prefix, _)) = self.v6.last() {
            return Some(prefix.nlri());
        }
        match self.v4.last() {
            None => None,
            Some((subnet, _)) => Some(subnet.nlri()),
        }
    }

    // The value of the last one of a prefix's family. Nothing is promised of it.
    #[inline(always)]
    pub(crate) fn latest(&self, prefix: &Prefix) -> Option<&V> {
        match prefix.addr() {
            Addr::V4(_) => match self.v4.last() {
                None => None,
                Some((_, value)) => Some(value),
            },
            Addr::V6(_) => match self.v6.last() {
                None => None,
                Some((_, value)) => Some(value),
            },
        }
    }

    // All in order.
    pub(crate) fn iter(&self) -> PlainIter<'_, V>
        ensures { result ≡ self.now }
    {
        PlainIter {
            v4: self.v4.iter(),
            v6: self.v6.iter(),
        }
    }
}

impl<V: Copy> PlainRoutes<V> {
    // Appends all values, in order, by the slices of the chunks. Where there was no memory, some may have been appended.
    pub(crate) fn push_values(&self, into: &mut Vec<V>) -> Result<(), NoMemory>
        ensures { OnOk result (into.new.items ≡ into.old.items ++ values_of self.now) }
    {
        self.v4.push_values(into)?;
        self.v6.push_values(into)?;
        Ok(())
    }

    // Gives a prefix a value, and answers the one that it had. Where there was no memory nothing changed.
    #[inline(always)]
    pub(crate) fn insert(&mut self, prefix: &Prefix, value: V) -> Result<Option<V>, NoMemory>
        ensures before { IfOk result (λ v. v ≡ value_of self.old (plain prefix.now)) }
        ensures put { OnOk result (self.new ≡ with_value self.old (plain prefix.now) value) }
        ensures same { OnErr result (self.new ≡ self.old) }
    {
        match Ipv4Plain::of(prefix) {
            Some(subnet) => Ok(self.v4.insert(subnet, value)?),
            None => Ok(self.v6.insert(Ipv6Plain::of(prefix), value)?),
        }
    }
}

impl<V: Drop> PlainRoutes<V> {
    // Takes the value of a prefix out, where it has one. It takes no memory.
    pub(crate) fn remove(&mut self, prefix: &Prefix) -> Option<V>
        ensures before { result ≡ value_of self.old (plain prefix.now) }
        ensures removed { self.new ≡ without_nlri self.old (plain prefix.now) }
    {
        match Ipv4Plain::of(prefix) {
            Some(subnet) => self.v4.remove(&subnet),
            None => self.v6.remove(&Ipv6Plain::of(prefix)),
        }
    }
}
