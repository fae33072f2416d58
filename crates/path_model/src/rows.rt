//! Rows of attestations by customer.
ghost use Rattle.std.specs.Prelude.{◌≡◌, ◌++◌, List, ℕ, IfOk, OnOk, OnErr};
ghost use Rattle.std.specs.Ordering.{nat_cmp};
ghost use Rattle.std.specs.Option.{option_copied};
ghost use Rattle.std.specs.FinMap as map;
ghost use Rattle.std.specs.Borrow.{Bor};
ghost use Rattle.std.specs.Iterator.{YieldsFirstBy, item_count};
ghost use Rattle.std.specs.List.Sorted.{IsStrictlySortedBy};
ghost use Rattle.std.specs.Map.{keys_of};
ghost use Rattle.path_model.specs.Entries.{rows_left};
ghost use Rattle.path_model.specs.Rows.{HaveSets, SetsRow, Unites, row_or_empty};

use crate::AsList;
use av_base::NoMemory;
use std::alloc::Global;
use std::collections::{BTreeMap, btree_map};
use std::marker::Model;

/// A finite map from customer ASes to sets of provider ASes: what the attestations of one source say.
/// A customer without a row attests nothing; one with an empty row attests that it has no provider.
#[derive(Debug, Drop)]
pub struct Rows {
    alloc: Global,
    rows: BTreeMap<u32, AsList>,
}

impl Model for Rows {
    ghost use Rattle.std.specs.FinMap as map;
    ghost use Rattle.std.specs.Coded.{coded_ℕ, coded_list};
    ghost use Rattle.path_model.specs.Rows.{RowMap, HaveSets};

    ghost Value = { RowMap };

    ghost coded = { map.code coded_ℕ (coded_list coded_ℕ) };

    ghost view = { λ a. map.from_entries a.rows.entries };

    ghost invariant = { λ a. HaveSets (map.from_entries a.rows.entries) };
}

impl Rows {
    /// No rows. It takes no memory.
    pub fn new(alloc: Global) -> Rows
        ensures { result ≡ map.empty }
    {
        Rows {
            alloc,
            rows: BTreeMap::new(alloc),
        }
    }

    /// The row of a customer, strictly ascending; `None` exactly where it has none.
    pub fn row(&self, customer: u32) -> Option<&AsList>
        ensures row { option_copied result ≡ map.get self.now customer }
        ensures sets { HaveSets self.now }
    {
        self.rows.get(&customer)
    }

    /// The pairs of a customer and its row, by rising customer. It takes no memory.
    pub fn entries(&self) -> RowEntries<'_>
        ensures whole { map.from_entries (rows_left result) ≡ self.now }
        ensures rising { IsStrictlySortedBy nat_cmp (keys_of (rows_left result)) }
        ensures sets { HaveSets self.now }
    {
        RowEntries {
            inner: self.rows.iter(),
        }
    }

    /// Unites these providers, in any order and with repeats, with the row of a customer. It costs what the row is long.
    pub fn unite(&mut self, customer: u32, providers: &[u32]) -> Result<(), NoMemory>
        ensures ok { OnOk result (Unites self.old customer providers.now self.new) }
        ensures err { OnErr result (self.new ≡ self.old) }
    {
        let united = united_list(self.alloc, self.row(customer), providers)?;
        self.set(customer, united)
    }

    /// Gives a customer the row of these providers, in any order and with repeats, in place of the one it had.
    pub fn set(&mut self, customer: u32, providers: AsList) -> Result<(), NoMemory>
        ensures ok { OnOk result (SetsRow self.old customer providers self.new) }
        ensures err { OnErr result (self.new ≡ self.old) }
    {
        let row = providers.into_set();
        self.rows.insert(customer, row)?;
        Ok(())
    }

    /// Takes the row of a customer away, if it has one. It takes no memory.
    pub fn remove(&mut self, customer: u32)
        ensures { self.new ≡ map.remove self.old customer }
    {
        self.rows.remove(&customer);
    }

    /// The same rows once more.
    pub fn copy(&self) -> Result<Rows, NoMemory>
        ensures { IfOk result (λ rows. rows ≡ self.now) }
    {
        Ok(Rows {
            alloc: self.alloc,
            rows: self.rows.clone()?,
        })
    }
}

// The providers of the row, if there is one, and then these.
fn united_list(alloc: Global, row: Option<&AsList>, providers: &[u32]) -> Result<AsList, NoMemory>
    ensures { IfOk result (λ list. list ≡ row_or_empty (option_copied row.entry) ++ providers.now) }
{
    let mut list = match row {
        Some(row) => row.copy()?,
        None => AsList::new(alloc),
    };
    list.extend(providers)?;
    Ok(list)
}

/// The pairs of a `Rows`, by rising customer.
#[derive(Drop)]
pub struct RowEntries<'a> {
    pub(crate) inner: btree_map::Iter<'a, u32, AsList>,
}

impl<'a> Iterator for RowEntries<'a> {
    type Item = (u32, &'a AsList);

    ghost next_gives = { YieldsFirstBy (λ (i : ℕ × Bor (List ℕ)). (i.0, i.1.now)) rows_left };

    ghost remaining = { item_count rows_left };

    fn next(&mut self) -> Option<(u32, &'a AsList)> {
        match self.inner.next() {
            Some((customer, row)) => Some((*customer, row)),
            None => None,
        }
    }
}
