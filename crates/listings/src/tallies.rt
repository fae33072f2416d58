//! Keys by which routes are counted, with their tallies.
ghost use Rattle.std.specs.Prelude.{◌≡◌, [], length, OnOk};
ghost use Rattle.std.specs.List.Sorted.{IsStrictlySortedBy};
ghost use Rattle.std.specs.Map.{keys_of};
ghost use Rattle.listings.specs.TallySteps.{Adds, AddsTo, HasRoom, HasRoomFor, IsAmong, more, tally_at};

use crate::tally::{Tally, more};
use av_base::NoMemory;
use std::alloc::Global;
use std::collections::{BTreeMap, btree_map};
use std::marker::Model;

/// Keys in ascending order, each with its tally: valleys, or ASes. A contract sees the list of these. It takes the memory of the distinct
/// keys.
#[derive(Drop)]
pub struct Tallies<K: Ord> {
    rows: BTreeMap<K, Tally>,
}

impl<K: Ord> Model for Tallies<K> {
    ghost use Rattle.std.specs.Prelude.{List};
    ghost use Rattle.std.specs.List.Sorted.{IsStrictlySortedBy};
    ghost use Rattle.std.specs.Map.{keys_of};
    ghost use Rattle.listings.specs.declared.tally.Tally.{Tally as AnyTally};

    ghost Value = { List (K × AnyTally) };

    ghost view = { λ t. t.rows.entries };

    ghost invariant = { λ t. IsStrictlySortedBy K.cmp (keys_of t.rows.entries) };
}

impl<K: Ord> Tallies<K> {
    // None. It takes no memory.
    pub(crate) fn new(alloc: Global) -> Tallies<K>
        ensures { result ≡ [] }
    {
        Tallies {
            rows: BTreeMap::new(alloc),
        }
    }

    /// The number of keys.
    pub fn len(&self) -> usize
        ensures len { result ≡ length self.now }
        ensures ascending { IsStrictlySortedBy K.cmp (keys_of self.now) }
    {
        self.rows.len()
    }

    /// Each key with its tally, in ascending order.
    pub fn iter(&self) -> btree_map::Iter<'_, K, Tally>
        ensures whole { result ≡ self.now }
        ensures ascending { IsStrictlySortedBy K.cmp (keys_of self.now) }
    {
        self.rows.iter()
    }
}

impl<K: Ord + Copy> Tallies<K> {
    // So many routes over one path have these keys, which ascend.
    pub(crate) fn add_all(&mut self, keys: &[K], routes: u64) -> Result<(), NoMemory>
        requires ascending { IsStrictlySortedBy K.cmp keys.now }
        requires room { HasRoomFor K.cmp (IsAmong K.cmp keys.now) routes self.old }
        ensures { OnOk result (AddsTo K.cmp (IsAmong K.cmp keys.now) routes self.old self.new) }
    {
        for key in keys {
            self.add(*key, routes)?;
        }
        Ok(())
    }

    // So many routes over one path have this key.
    fn add(&mut self, key: K, routes: u64) -> Result<(), NoMemory>
        requires { HasRoom routes (tally_at K.cmp self.old key) }
        ensures { OnOk result (Adds K.cmp key routes self.old self.new) }
    {
        let tally = more(self.rows.get(&key).copied(), routes);
        self.rows.insert(key, tally)?;
        Ok(())
    }
}
