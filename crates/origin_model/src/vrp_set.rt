//! Sets of validated ROA payloads.
ghost use Rattle.std.specs.Prelude.{◌≡◌, ◌<◌, ◌^◌, ◌↔◌, [], length, IfNone, IfOk, IfSome, IsTrue, OnErr, OnOk};
ghost use Rattle.std.specs.BTreeMap.{is_at};
ghost use Rattle.std.specs.BTreeSet.{insert_key};
ghost use Rattle.std.specs.Set.{remove_key};
ghost use Rattle.std.specs.List.Sorted.{IsStrictlySortedBy};
ghost use Rattle.origin_model.specs.Vrp.{payload_cmp};
ghost use Rattle.origin_model.specs.VrpSet.{AreAllOf, ArePayloads, Gains, HasAllOf, HasNoneBefore, IsLastBefore, Loses, StandsIn, has};

use crate::{Vrp, VrpEntries};
use av_base::NoMemory;
use path_model::Prefix;
use std::alloc::Global;
use std::collections::{BTreeSet, btree_set};
use std::marker::Model;

/// A finite set of payloads, which contracts see as the list of them in their order. A payload takes its 32 bytes, and its share of a node
/// of the tree. What goes in, goes out or is looked for takes a time by the logarithm of their number.
#[derive(Debug, Drop)]
pub struct VrpSet {
    members: BTreeSet<Vrp>,
}

impl Model for VrpSet {
    ghost use Rattle.std.specs.Prelude.{List};
    ghost use Rattle.origin_model.specs.Vrp.{Payload};
    ghost use Rattle.origin_model.specs.VrpSet.{ArePayloads};

    ghost Value = { List Payload };

    ghost view = { λ s. s.members.keys };

    ghost invariant = { λ s. ArePayloads s.members.keys };
}

impl VrpSet {
    /// No payload. It takes no memory.
    pub fn new(alloc: Global) -> VrpSet
        ensures { result ≡ [] }
    {
        VrpSet {
            members: BTreeSet::new(alloc),
        }
    }

    /// One more payload, if it isn't there yet.
    pub fn add(&mut self, v: Vrp) -> Result<(), NoMemory>
        ensures ok { OnOk result (self.new ≡ insert_key payload_cmp self.old v) }
        ensures gains { OnOk result (Gains self.old v self.new) }
        ensures err { OnErr result (self.new ≡ self.old) }
    {
        // it comes with what each payload is
        let _max = Vrp::max(&v);
        self.members.insert(v)?;
        Ok(())
    }

    /// One payload less; false exactly where it isn't there. It takes no memory.
    pub fn drop_one(&mut self, v: &Vrp) -> bool
        ensures was { result ≡ has self.old v.now }
        ensures whole { self.new ≡ remove_key (is_at (payload_cmp v.now)) self.old }
        ensures loses { Loses self.old v.now self.new }
    {
        self.members.remove(v)
    }

    /// Whether a payload is there.
    pub fn contains(&self, v: &Vrp) -> bool
        ensures { result ≡ has self.now v.now }
    {
        self.members.contains(v)
    }

    /// Whether no payload is there.
    pub fn is_empty(&self) -> bool
        ensures { IsTrue result ↔ (self.now ≡ []) }
    {
        self.members.is_empty()
    }

    /// How many payloads are there.
    pub fn len(&self) -> usize
        ensures len { result ≡ length self.now }
        ensures small { result < 2 ^ 63 }
    {
        self.members.len()
    }

    /// All payloads in their order. It takes no memory.
    pub fn entries(&self) -> VrpEntries<'_>
        ensures whole { result ≡ self.now }
        ensures rising { IsStrictlySortedBy payload_cmp self.now }
    {
        VrpEntries {
            inner: self.members.iter(),
        }
    }

    /// The payloads of one prefix, in their order. It takes no memory, and the time of a look-up and of what it gives.
    pub fn of_prefix(&self, prefix: &Prefix) -> btree_set::Range<'_, Vrp>
        ensures within { StandsIn result self.now }
        ensures only { AreAllOf prefix.now result }
        ensures all { HasAllOf prefix.now self.now result }
        ensures payloads { ArePayloads self.now }
    {
        self.members
            .range(Vrp::least_of(*prefix)..=Vrp::greatest_of(*prefix))
    }

    /// The prefix of the last payload before those of a prefix in the order, if there is one. It takes no memory, and the time of a look-up.
    pub fn prefix_before(&self, prefix: &Prefix) -> Option<Prefix>
        ensures some { IfSome result (IsLastBefore self.now prefix.now) }
        ensures none { IfNone result (HasNoneBefore self.now prefix.now) }
    {
        let v = self.members.range(..Vrp::least_of(*prefix)).next_back()?;
        Some(v.prefix())
    }

    /// The same set once more.
    pub fn copy(&self) -> Result<VrpSet, NoMemory>
        ensures { IfOk result (λ set. set ≡ self.now) }
    {
        Ok(VrpSet {
            members: self.members.clone()?,
        })
    }
}
