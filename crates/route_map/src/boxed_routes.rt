//! The values of one peer's routes with a path identifier, in a box of their own.
ghost use Rattle.std.specs.Prelude.{◌≡◌, ◌↔◌, ◌++◌, [], length, IfNone, IfOk, IfSome, OnOk, OnErr, IsTrue, option_copied};
ghost use Rattle.std.specs.Map.{values_of};
ghost use Rattle.route_map.specs.Merged.{boxed_or, identified, value_of, with_value, without_nlri, HasNlri};

use crate::boxed_iter::BoxedIter;
use crate::identified_routes::IdentifiedRoutes;
use av_base::NoMemory;
use path_model::{Nlri, Prefix};
use std::alloc::Global;
use std::marker::Model;

// The value of each prefix and path identifier that one peer has a route to. Where there are none it takes 16 bytes.
#[derive(Drop)]
pub(crate) struct BoxedRoutes<V> {
    alloc: Global,
    // none where there are none
    routes: Option<Box<IdentifiedRoutes<V>>>,
}

impl<V> Model for BoxedRoutes<V> {
    ghost use Rattle.std.specs.Prelude.{List};
    ghost use Rattle.path_model.specs.declared.nlri.Nlri.{Nlri};
    ghost use Rattle.route_map.specs.Merged.{boxed_or};

    ghost Value = { List (Nlri × V) };

    ghost view = { λ r. boxed_or r.routes };
}

impl<V> BoxedRoutes<V> {
    // None at all. It takes no memory.
    pub(crate) fn new(alloc: Global) -> BoxedRoutes<V>
        ensures { result ≡ [] }
    {
        BoxedRoutes {
            alloc,
            routes: None,
        }
    }

    // Whether there are none.
    pub(crate) fn is_empty(&self) -> bool
        ensures { IsTrue result ↔ (self.now ≡ []) }
    {
        match &self.routes {
            None => true,
            Some(routes) => routes.is_empty(),
        }
    }

    // How many there are.
    pub(crate) fn len(&self) -> usize
        ensures { result ≡ length self.now }
    {
        match &self.routes {
            None => 0,
            Some(routes) => routes.len(),
        }
    }

    // The value of a prefix.
    pub(crate) fn get(&self, prefix: &Prefix, path: u32) -> Option<&V>
        ensures { option_copied result ≡ value_of self.now (identified prefix.now path) }
    {
        match &self.routes {
            None => None,
            Some(routes) => routes.get(prefix, path),
        }
    }

    // One of them: `None` exactly where there are none. It takes no search.
    pub(crate) fn last(&self) -> Option<Nlri>
        ensures none { IfNone result (self.now ≡ []) }
        ensures some { IfSome result (HasNlri self.now) }
    {
        match &self.routes {
            None => None,
            Some(routes) => routes.last(),
        }
    }

    // All in order.
    pub(crate) fn iter(&self) -> BoxedIter<'_, V>
        ensures { result ≡ self.now }
    {
        match &self.routes {
            None => BoxedIter { routes: None },
            Some(routes) => BoxedIter {
                routes: Some(routes.iter()),
            },
        }
    }
}

impl<V: Copy> BoxedRoutes<V> {
    // Appends all values, in order, by the slices of the chunks. Where there was no memory, some may have been appended.
    pub(crate) fn push_values(&self, into: &mut Vec<V>) -> Result<(), NoMemory>
        ensures { OnOk result (into.new.items ≡ into.old.items ++ values_of self.now) }
    {
        match &self.routes {
            None => Ok(()),
            Some(routes) => routes.push_values(into),
        }
    }

    // Gives a prefix a value, and answers the one that it had. Where there was no memory nothing changed.
    pub(crate) fn insert(
        &mut self,
        prefix: &Prefix,
        path: u32,
        value: V,
    ) -> Result<Option<V>, NoMemory>
        ensures before { IfOk result (λ v. v ≡ value_of self.old (identified prefix.now path)) }
        ensures put { OnOk result
            (self.new ≡ with_value self.old (identified prefix.now path) value) }
        ensures same { OnErr result (self.new ≡ self.old) }
    {
        if let Some(routes) = &mut self.routes {
            let before = routes.insert(prefix, path, value)?;
            return Ok(before);
        }
        let mut routes = IdentifiedRoutes::new(self.alloc);
        routes.insert(prefix, path, value)?;
        self.routes = Some(Box::new(self.alloc, routes)?);
        Ok(None)
    }
}

impl<V: Drop> BoxedRoutes<V> {
    // Takes the value of a prefix out, where it has one. It takes no memory, and the box goes with the last of them.
    pub(crate) fn remove(&mut self, prefix: &Prefix, path: u32) -> Option<V>
        ensures before { result ≡ value_of self.old (identified prefix.now path) }
        ensures removed { self.new ≡ without_nlri self.old (identified prefix.now path) }
    {
        let (before, emptied) = take_out(&mut self.routes, prefix, path);
        if emptied {
            self.routes = None;
        }
        before
    }
}

// Takes the value of a prefix out, where it has one, and answers it, and whether there are none any more.
fn take_out<V: Drop>(
    routes: &mut Option<Box<IdentifiedRoutes<V>>>,
    prefix: &Prefix,
    path: u32,
) -> (Option<V>, bool)
    ensures before { result.0 ≡ value_of (boxed_or routes.old) (identified prefix.now path) }
    ensures removed { boxed_or routes.new
        ≡ without_nlri (boxed_or routes.old) (identified prefix.now path) }
    ensures emptied { IsTrue result.1 ↔ (boxed_or routes.new ≡ []) }
{
    match routes {
        None => (None, true),
        Some(routes) => take_from(routes, prefix, path),
    }
}

// The same of what is in a box.
fn take_from<V: Drop>(
    routes: &mut IdentifiedRoutes<V>,
    prefix: &Prefix,
    path: u32,
) -> (Option<V>, bool)
    ensures before { result.0 ≡ value_of routes.old (identified prefix.now path) }
    ensures removed { routes.new ≡ without_nlri routes.old (identified prefix.now path) }
    ensures emptied { IsTrue result.1 ↔ (routes.new ≡ []) }
{
    let before = routes.remove(prefix, path);
    (before, routes.is_empty())
}
