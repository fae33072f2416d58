//! Changes of rows by customer.
ghost use Rattle.std.specs.Prelude.{◌≡◌, List, ℕ, Option, IfOk, OnOk, OnErr};
ghost use Rattle.std.specs.Option.{option_copied};
ghost use Rattle.std.specs.Ordering.{nat_cmp};
ghost use Rattle.std.specs.FinMap as map;
ghost use Rattle.std.specs.Borrow.{Bor};
ghost use Rattle.std.specs.Iterator.{YieldsFirstBy, item_count};
ghost use Rattle.std.specs.List.Sorted.{IsStrictlySortedBy};
ghost use Rattle.std.specs.Map.{keys_of};
ghost use Rattle.path_model.specs.Entries.{patches_left};
ghost use Rattle.path_model.specs.Rows.{PatchHasSets, SetsPatch, IsRowOf};

use crate::AsList;
use av_base::NoMemory;
use std::alloc::Global;
use std::collections::{BTreeMap, btree_map};
use std::marker::Model;

/// A finite map from customer ASes to a set of provider ASes, or to "no row".
#[derive(Debug, Drop)]
pub struct Patch {
    rows: BTreeMap<u32, Option<AsList>>,
}

impl Model for Patch {
    ghost use Rattle.std.specs.FinMap as map;
    ghost use Rattle.std.specs.Coded.{coded_ℕ, coded_list, coded_option};
    ghost use Rattle.path_model.specs.Rows.{PatchMap, PatchHasSets};

    ghost Value = { PatchMap };

    ghost coded = { map.code coded_ℕ (coded_option (coded_list coded_ℕ)) };

    ghost view = { λ a. map.from_entries a.rows.entries };

    ghost invariant = { λ a. PatchHasSets (map.from_entries a.rows.entries) };
}

impl Patch {
    /// It names no customer. It takes no memory.
    pub fn new(alloc: Global) -> Patch
        ensures { result ≡ map.empty }
    {
        Patch {
            rows: BTreeMap::new(alloc),
        }
    }

    /// Says that a customer has the row of these providers, in any order and with repeats, or none.
    pub fn set(&mut self, customer: u32, row: Option<AsList>) -> Result<(), NoMemory>
        ensures ok { OnOk result (SetsPatch self.old customer row self.new) }
        ensures err { OnErr result (self.new ≡ self.old) }
    {
        let row = row_as_set(row);
        self.rows.insert(customer, row)?;
        Ok(())
    }

    /// What is said of a customer: its row, or that it has none; `None` exactly where nothing is said of it.
    pub fn of(&self, customer: u32) -> Option<&Option<AsList>>
        ensures said { option_copied result ≡ map.get self.now customer }
        ensures sets { PatchHasSets self.now }
    {
        self.rows.get(&customer)
    }

    /// The pairs of a customer and what is said of it, by rising customer. It takes no memory.
    pub fn entries(&self) -> PatchEntries<'_>
        ensures whole { map.from_entries (patches_left result) ≡ self.now }
        ensures rising { IsStrictlySortedBy nat_cmp (keys_of (patches_left result)) }
        ensures sets { PatchHasSets self.now }
    {
        PatchEntries {
            inner: self.rows.iter(),
        }
    }

    /// The same patch once more.
    pub fn copy(&self) -> Result<Patch, NoMemory>
        ensures { IfOk result (λ patch. patch ≡ self.now) }
    {
        Ok(Patch {
            rows: self.rows.clone()?,
        })
    }
}

fn row_as_set(row: Option<AsList>) -> Option<AsList>
    ensures { IsRowOf row result }
{
    match row {
        Some(list) => Some(list.into_set()),
        None => None,
    }
}

/// The pairs of a `Patch`, by rising customer.
#[derive(Drop)]
pub struct PatchEntries<'a> {
    pub(crate) inner: btree_map::Iter<'a, u32, Option<AsList>>,
}

impl<'a> Iterator for PatchEntries<'a> {
    type Item = (u32, &'a Option<AsList>);

    ghost next_gives = { YieldsFirstBy (λ (i : ℕ × Bor (Option (List ℕ))). (i.0, i.1.now)) patches_left };

    ghost remaining = { item_count patches_left };

    fn next(&mut self) -> Option<(u32, &'a Option<AsList>)> {
        match self.inner.next() {
            Some((customer, row)) => Some((*customer, row)),
            None => None,
        }
    }
}
