//! What was said of payloads since some moment.
ghost use Rattle.std.specs.Prelude.{◌≡◌, ◌↔◌, Bool, [], IfOk, IsTrue, OnErr, OnOk, length};
ghost use Rattle.std.specs.Borrow.{Bor};
ghost use Rattle.std.specs.BTreeMap.{insert_entry};
ghost use Rattle.std.specs.Iterator.{YieldsFirstBy, item_count};
ghost use Rattle.std.specs.List.Sorted.{IsStrictlySortedBy};
ghost use Rattle.std.specs.Map.{keys_of};
ghost use Rattle.origin_model.specs.Vrp.{Payload, payload_cmp};
ghost use Rattle.origin_model.specs.VrpChanges.{Says};

use crate::Vrp;
use av_base::NoMemory;
use std::alloc::Global;
use std::collections::{BTreeMap, btree_map};
use std::marker::Model;

/// What was said last of each payload that was named: that it was announced, or that it was withdrawn. Contracts see it as the list of
/// pairs in the payloads' order, each payload once. A payload takes some 40 bytes, and its share of a node of the tree.
#[derive(Debug, Drop)]
pub struct VrpChanges {
    // whether the payload was announced
    last: BTreeMap<Vrp, bool>,
}

impl Model for VrpChanges {
    ghost use Rattle.std.specs.Prelude.{Bool, List};
    ghost use Rattle.origin_model.specs.Vrp.{Payload};

    ghost Value = { List (Payload × Bool) };

    ghost view = { λ c. c.last.entries };
}

impl VrpChanges {
    /// Nothing is said. It takes no memory.
    pub fn new(alloc: Global) -> VrpChanges
        ensures { result ≡ [] }
    {
        VrpChanges {
            last: BTreeMap::new(alloc),
        }
    }

    /// Says that a payload was announced, or that it was withdrawn, in place of what was said of it before. It takes a time by the
    /// logarithm of their number.
    pub fn note(&mut self, v: Vrp, announced: bool) -> Result<(), NoMemory>
        ensures ok { OnOk result (self.new ≡ insert_entry payload_cmp self.old v announced) }
        ensures says { OnOk result (Says self.old v announced self.new) }
        ensures err { OnErr result (self.new ≡ self.old) }
    {
        self.last.insert(v, announced)?;
        Ok(())
    }

    /// Whether no payload was named.
    pub fn is_empty(&self) -> bool
        ensures { IsTrue result ↔ (self.now ≡ []) }
    {
        self.last.is_empty()
    }

    /// How many payloads were named.
    pub fn len(&self) -> usize
        ensures { result ≡ length self.now }
    {
        self.last.len()
    }

    /// The payloads that were named, in their order, each with whether it was announced. It takes no memory.
    pub fn entries(&self) -> VrpChangeEntries<'_>
        ensures whole { result ≡ self.now }
        ensures rising { IsStrictlySortedBy payload_cmp (keys_of self.now) }
    {
        VrpChangeEntries {
            inner: self.last.iter(),
        }
    }

    /// The same once more.
    pub fn copy(&self) -> Result<VrpChanges, NoMemory>
        ensures { IfOk result (λ changes. changes ≡ self.now) }
    {
        Ok(VrpChanges {
            last: self.last.clone()?,
        })
    }
}

/// The payloads named that are still to come, in their order, each with whether it was announced.
#[derive(Drop)]
pub struct VrpChangeEntries<'a> {
    pub(crate) inner: btree_map::Iter<'a, Vrp, bool>,
}

impl<'a> Model for VrpChangeEntries<'a> {
    ghost use Rattle.std.specs.Prelude.{Bool, List};
    ghost use Rattle.origin_model.specs.Vrp.{Payload};

    ghost Value = { List (Payload × Bool) };

    ghost view = { λ e. e.inner };
}

impl<'a> Iterator for VrpChangeEntries<'a> {
    type Item = (&'a Vrp, bool);

    ghost next_gives = { YieldsFirstBy (λ (e : Bor Payload × Bool). (e.0.now, e.1)) (λ r. r) };

    ghost remaining = { item_count (λ left. left) };

    fn next(&mut self) -> Option<(&'a Vrp, bool)> {
        match self.inner.next() {
            Some((v, announced)) => Some((v, *announced)),
            None => None,
        }
    }
}
