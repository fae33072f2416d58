//! Lists of providers that are gathered before they become rows.
ghost use Rattle.std.specs.Prelude.{◌≡◌, ◌++◌, IfOk, OnOk, OnErr};
ghost use Rattle.std.specs.FinMap as map;
ghost use Rattle.path_model.specs.Rows.{AreSetsOf, HaveSets, row_or_empty};

use crate::{AsList, Rows};
use av_base::NoMemory;
use std::alloc::Global;
use std::collections::BTreeMap;
use std::marker::Model;

/// From customers to lists of providers, each list in the order in which it came, repeats and all.
/// Many attestations of one customer are gathered in the time of their own lengths.
#[derive(Debug, Drop)]
pub struct Gathered {
    alloc: Global,
    lists: BTreeMap<u32, AsList>,
}

impl Model for Gathered {
    ghost use Rattle.std.specs.FinMap as map;
    ghost use Rattle.std.specs.Coded.{coded_ℕ, coded_list};
    ghost use Rattle.path_model.specs.Rows.{RowMap};

    ghost Value = { RowMap };

    ghost coded = { map.code coded_ℕ (coded_list coded_ℕ) };

    ghost view = { λ a. map.from_entries a.lists.entries };
}

impl Gathered {
    /// Nothing gathered. It takes no memory.
    pub fn new(alloc: Global) -> Gathered
        ensures { result ≡ map.empty }
    {
        Gathered {
            alloc,
            lists: BTreeMap::new(alloc),
        }
    }

    /// Appends to the list of a customer; an empty list is begun where it has none.
    pub fn gather(&mut self, customer: u32, providers: &[u32]) -> Result<(), NoMemory>
        ensures ok { OnOk result (self.new ≡ map.insert self.old customer (row_or_empty (map.get self.old customer) ++ providers.now)) }
        ensures err { OnErr result (self.new ≡ self.old) }
    {
        match self.lists.get_mut(&customer) {
            Some(list) => list.extend(providers),
            None => self.begin(customer, providers),
        }
    }

    fn begin(&mut self, customer: u32, providers: &[u32]) -> Result<(), NoMemory>
        ensures ok { OnOk result (self.new ≡ map.insert self.old customer providers.now) }
        ensures err { OnErr result (self.new ≡ self.old) }
    {
        let list = AsList::from_slice(self.alloc, providers)?;
        self.lists.insert(customer, list)?;
        Ok(())
    }

    /// The rows: each customer's is the set of its list.
    pub fn into_rows(self) -> Result<Rows, NoMemory>
        ensures { IfOk result (AreSetsOf self) }
    {
        let Gathered { alloc, lists } = self;
        let mut rows = Rows::new(alloc);
        for (customer, list) in lists {
            rows.set(customer, list)?;
        }
        Ok(rows)
    }
}
