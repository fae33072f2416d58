//! The values of one peer's routes with a path identifier.
ghost use Rattle.std.specs.Prelude.{◌≡◌, ◌↔◌, ◌++◌, [], length, IfNone, IfOk, IfSome, OnOk, OnErr, IsTrue, option_copied};
ghost use Rattle.std.specs.Map.{values_of};
ghost use Rattle.route_map.specs.Merged.{identified, value_of, with_value, without_nlri, HasNlri};

use crate::identified_iter::IdentifiedIter;
use crate::ipv4_nlri::Ipv4Nlri;
use av_base::NoMemory;
use path_model::{Nlri, Prefix};
use sorted_map::Sorted;
use std::alloc::Global;
use std::marker::Model;

// The value of each prefix and path identifier that one peer has a route to (RFC 7911, section 3).
#[derive(Drop)]
pub(crate) struct IdentifiedRoutes<V> {
    // an IPv4 prefix takes 12 bytes with its identifier, and an IPv6 prefix 32
    v4: Sorted<Ipv4Nlri, V>,
    v6: Sorted<Nlri, V>,
}

impl<V> Model for IdentifiedRoutes<V> {
    ghost use Rattle.std.specs.Prelude.{List, ◌++◌};
    ghost use Rattle.path_model.specs.declared.nlri.Nlri.{Nlri};
    ghost use Rattle.route_map.specs.Families.{AreByFamily};

    ghost Value = { List (Nlri × V) };

    ghost view = { λ r. r.v4 ++ r.v6 };

    ghost invariant = { λ r. AreByFamily r.v4 r.v6 };
}

impl<V> IdentifiedRoutes<V> {
    // None at all. It takes no memory.
    pub(crate) fn new(alloc: Global) -> IdentifiedRoutes<V>
        ensures { result ≡ [] }
    {
        IdentifiedRoutes {
            v4: Sorted::new(alloc),
            v6: Sorted::new(alloc),
        }
    }

    // Whether there are none.
    pub(crate) fn is_empty(&self) -> bool
        ensures { IsTrue result ↔ (self.now ≡ []) }
    {
        self.v4.len() == 0 && self.v6.len() == 0
    }

    // How many there are.
    pub(crate) fn len(&self) -> usize
        ensures { result ≡ length self.now }
    {
        self.v4.len() + self.v6.len()
    }

    // The value of a prefix.
    pub(crate) fn get(&self, prefix: &Prefix, path: u32) -> Option<&V>
        ensures { option_copied result ≡ value_of self.now (identified prefix.now path) }
    {
        match Ipv4Nlri::of(prefix, path) {
            Some(subnet) => self.v4.get(&subnet),
            None => self.v6.get(&nlri_of(prefix, path)),
        }
    }

    // One of them: `None` exactly where there are none. It takes no search.
    pub(crate) fn last(&self) -> Option<Nlri>
        ensures none { IfNone result (self.now ≡ []) }
        ensures some { IfSome result (HasNlri self.now) }
    {
        if let Some((nlri, _)) = self.v6.last() {
            return Some(*nlri);
        }
        match self.v4.last() {
            None => None,
            Some((subnet, _)) => Some(subnet.nlri()),
        }
    }

    // All in order.
    pub(crate) fn iter(&self) -> IdentifiedIter<'_, V>
        ensures { result ≡ self.now }
    {
        IdentifiedIter {
            v4: self.v4.iter(),
            v6: self.v6.iter(),
        }
    }
}

impl<V: Copy> IdentifiedRoutes<V> {
    // Appends all values, in order, by the slices of the chunks. Where there was no memory, some may have been appended.
    pub(crate) fn push_values(&self, into: &mut Vec<V>) -> Result<(), NoMemory>
        ensures { OnOk result (into.new.items ≡ into.old.items ++ values_of self.now) }
    {
        self.v4.push_values(into)?;
        self.v6.push_values(into)?;
        Ok(())
    }

    // Gives a prefix a value, and answers the one that it had. Where there was no memory nothing changed.
    pub(crate) fn insert(
        &mut self,
        prefix: &Prefix,
        path: u32,
        value: V,
    ) -> Result<Option<V>, NoMemory>
        ensures before { IfOk result (λ v. v ≡ value_of self.old (identified prefix.now path)) }
        ensures put { OnOk result
            (self.new ≡ with_value self.old (identified prefix.now path) value) }
        ensures same { OnErr result (self.new ≡ self.old) }
    {
        match Ipv4Nlri::of(prefix, path) {
            Some(subnet) => Ok(self.v4.insert(subnet, value)?),
            None => Ok(self.v6.insert(nlri_of(prefix, path), value)?),
        }
    }
}

impl<V: Drop> IdentifiedRoutes<V> {
    // Takes the value of a prefix out, where it has one. It takes no memory.
    pub(crate) fn remove(&mut self, prefix: &Prefix, path: u32) -> Option<V>
        ensures before { result ≡ value_of self.old (identified prefix.now path) }
        ensures removed { self.new ≡ without_nlri self.old (identified prefix.now path) }
    {
        match Ipv4Nlri::of(prefix, path) {
            Some(subnet) => self.v4.remove(&subnet),
            None => self.v6.remove(&nlri_of(prefix, path)),
        }
    }
}

// A prefix with a path identifier.
fn nlri_of(prefix: &Prefix, path: u32) -> Nlri
    ensures { result ≡ identified prefix.now path }
{
    Nlri {
        prefix: *prefix,
        path: Some(path),
    }
}
