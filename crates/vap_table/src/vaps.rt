//! The current table with its parts.
ghost use Rattle.std.specs.Prelude.{◌≡◌, ℕ, true, IfOk};
ghost use Rattle.std.specs.Option.{option_copied};
ghost use Rattle.std.specs.Ordering.{nat_cmp};
ghost use Rattle.std.specs.FinMap as map;
ghost use Rattle.std.specs.Map.{keys_of};
ghost use Rattle.std.specs.List.Sorted.{IsStrictlySortedBy};
ghost use Rattle.attestations.specs.CurrentTable.{no_parts, IsCurrentRow, IsCurrentTable};
ghost use Rattle.attestations.specs.ComputedTable.{table_of};
ghost use Rattle.path_model.specs.Authority.{has};
ghost use Rattle.vap_table.specs.Change.{Alters};
ghost use Rattle.vap_table.specs.Counting.{AreTallies};
ghost use Rattle.vap_table.specs.Current.{kept_row, rows_among};
ghost use Rattle.vap_table.specs.Entries.{entries_left, rows_of};
ghost use Rattle.vap_table.specs.Lasts.{AreLasts};
ghost use Rattle.attestations.specs.Moves.{AreMoves};
ghost use Rattle.vap_table.specs.Naming.{Names, NamesLasts};
ghost use Rattle.vap_table.specs.Tally.{IsTallyOf};
ghost use Rattle.vap_table.specs.Vaps.{IsNumberOfRows};

use crate::comparing::Named;
use crate::current::Current;
use crate::customers::Customers;
use crate::lasts::Lasts;
use crate::listing::{with, without};
use crate::parts::HeldParts;
use crate::refreshing::refreshed;
use crate::searching::holds;
use crate::tallies::Tallies;
use crate::{Entries, TableChange, Tally};
use attestations::Moves;
use av_base::NoMemory;
use path_model::{AsList, Authority, Table};
use std::alloc::Global;
use std::collections::BTreeMap;
use std::marker::Model;

/// The table of validated ASPA payloads (draft-ietf-sidrops-aspa-verification) with all its parts: named sources, the filters and
/// assertions of a SLURM file (in the manner of RFC 8416), and those by hand. As a [`Table`] it is the current table of these parts.
pub struct Vaps {
    pub(crate) parts: HeldParts,
    // the current rows, made from the parts
    current: Current,
    // the tally of each customer of which something has a row, made from the parts
    tallies: Tallies,
    // the last moments of the attestations with an end, with their customers
    lasts: Lasts,
}

/// Written by hand and not derived: a check of a function that lets a table go then has one call there, and not each field.
impl Drop for Vaps {
    fn drop(self) {
        let Vaps {
            parts: _parts,
            current: _current,
            tallies: _tallies,
            lasts: _lasts,
        } = self;
    }
}

impl Model for Vaps {
    ghost use Rattle.attestations.specs.CurrentTable.{Parts};
    ghost use Rattle.vap_table.specs.Codes.{coded_parts};
    ghost use Rattle.vap_table.specs.Counting.{IsTallied};

    ghost Value = { Parts };

    ghost coded = { coded_parts };

    ghost view = { λ v. v.parts };

    ghost invariant = { λ v. IsTallied v.current v.tallies v.lasts v.parts };
}

impl Vaps {
    /// No parts, and so no rows. It takes no memory.
    pub fn new(alloc: Global) -> Vaps
        ensures { result ≡ no_parts }
    {
        Vaps {
            parts: HeldParts::new(alloc),
            current: Current::new(alloc),
            tallies: Tallies::new(alloc),
            lasts: Lasts::new(alloc),
        }
    }

    /// The table after a change, and the customers whose current row moved. It visits only the customers that the change names, and takes
    /// for each the time of its row, of what the part that changes has of it, and of what the change says of it. Another moment names
    /// those with an attestation that is alive at one of the two moments and not at the other one, and takes for each the time of all
    /// attestations that the sources have of it. A change by hand, or a moment, that changes nothing takes a look-up.
    pub fn change(self, change: TableChange) -> Result<(Vaps, Moves), NoMemory>
        ensures parts { IfOk result (λ r. Alters self change r.0) }
        ensures moves { IfOk result (λ r. AreMoves (table_of self) (table_of r.0) r.1) }
    {
        if self.parts.is_idle(&change) {
            let moves = Moves::with_capacity(self.parts.alloc, 0)?;
            return Ok((self, moves));
        }
        self.changed(change)
    }

    // The same, where something may change.
    fn changed(self, change: TableChange) -> Result<(Vaps, Moves), NoMemory>
        ensures parts { IfOk result (λ r. Alters self change r.0) }
        ensures moves { IfOk result (λ r. AreMoves (table_of self) (table_of r.0) r.1) }
    {
        let Vaps {
            parts,
            current,
            tallies,
            lasts,
        } = self;
        let (names, before) = named(&parts, &current, &lasts, &change)?;
        let (parts, tallies, lasts) = followed(parts, tallies, lasts, change, &names)?;
        let (current, moves) = refreshed(&parts, current, &tallies, before, &names.all)?;
        let current = current.trimmed(&parts)?;
        let vaps = Vaps {
            parts,
            current,
            tallies,
            lasts,
        };
        Ok((vaps, moves))
    }

    /// The current row of a customer, strictly ascending; `None` exactly where it is silent. It costs two ordered look-ups at most.
    pub fn row(&self, customer: u32) -> Option<&AsList>
        ensures { IsCurrentRow self.now customer (option_copied result) }
    {
        self.kept(customer)
    }

    /// Each customer that has a current row, with that row, by rising customer. It takes no memory.
    pub fn entries(&self) -> Entries<'_>
        ensures current { IsCurrentTable self.now (λ x. map.get (rows_of (entries_left result)) x) }
        ensures rising { IsStrictlySortedBy nat_cmp (keys_of (entries_left result)) }
    {
        Entries {
            customers: self.current.customers.iter(),
            current: &self.current,
            parts: &self.parts,
        }
    }

    /// The number of customers that have a current row. It takes the same time for any table.
    pub fn customers(&self) -> u64
        ensures { IsNumberOfRows (table_of self.now) result }
    {
        self.current.customers.len() as u64
    }

    /// How many alive attestations the named sources have of a customer, each counted once in each of them, how many assertions have a row
    /// of it, and how many of them hold each number; `None` exactly where there is no such attestation or row. Filters are no matter. It
    /// costs one ordered look-up, and takes no memory.
    pub fn tally(&self, customer: u32) -> Option<&Tally>
        ensures { IsTallyOf self.now customer (option_copied result) }
    {
        self.tallies.get(customer)
    }

    // The current row of a customer, as it is kept.
    fn kept(&self, customer: u32) -> Option<&AsList>
        ensures { option_copied result ≡ table_of self.now customer }
    {
        self.current.row(&self.parts, customer)
    }
}

impl Table for Vaps {
    ghost rows = { table_of };

    /// It costs a look-up in a map of words and a binary search.
    fn authority(&self, customer: u32, provider: u32) -> Authority {
        match self.current.quick.row(customer) {
            None => Authority::Silent,
            Some(row) => {
                if holds(row, provider) {
                    Authority::Provides
                } else {
                    Authority::Refuses
                }
            }
        }
    }
}

// The customers that the change names, and their current rows.
fn named(
    parts: &HeldParts,
    current: &Current,
    lasts: &Lasts,
    change: &TableChange,
) -> Result<(Named, BTreeMap<u32, AsList>), NoMemory>
    requires { AreLasts lasts.now parts.now.sources }
    ensures all { IfOk result (λ r. Names parts.now change.now r.0.all) }
    ensures ended { IfOk result (λ r. NamesLasts parts.now change.now r.0.ended) }
    ensures before { IfOk result (λ r. (q : ℕ) → has r.0.all q ≡ true → rows_among r.1.entries q
        ≡ kept_row current.now parts.now.moment parts.now.sources q) }
{
    let names = parts.named(lasts, change)?;
    let before = current.rows_of(parts.alloc, parts, &names.all)?;
    Ok((names, before))
}

// The parts once the change is made, with the tallies and the last moments of what it names.
fn followed(
    parts: HeldParts,
    tallies: Tallies,
    lasts: Lasts,
    change: TableChange,
    names: &Named,
) -> Result<(HeldParts, Tallies, Lasts), NoMemory>
    requires tallied { AreTallies tallies parts }
    requires listed { AreLasts lasts parts.sources }
    requires all { Names parts change names.now.all }
    requires ended { NamesLasts parts change names.now.ended }
    ensures parts { IfOk result (λ r. Alters parts change r.0) }
    ensures tallied { IfOk result (λ r. AreTallies r.1 r.0) }
    ensures listed { IfOk result (λ r. AreLasts r.2 r.0.sources) }
{
    let tallies = tallies.follow(&parts, &change, &names.all)?;
    let (parts, lasts) = relisted(parts, lasts, change, &names.ended)?;
    Ok((parts, tallies, lasts))
}

// The parts once the change is made, with the last moments of those whose attestations with an end change.
fn relisted(
    parts: HeldParts,
    lasts: Lasts,
    change: TableChange,
    ended: &Customers,
) -> Result<(HeldParts, Lasts), NoMemory>
    requires listed { AreLasts lasts parts.sources }
    requires ended { NamesLasts parts change ended.now }
    ensures parts { IfOk result (λ r. Alters parts change r.0) }
    ensures listed { IfOk result (λ r. AreLasts r.1 r.0.sources) }
{
    let mut parts = parts;
    let lasts = without(lasts, &parts.sources, ended);
    parts.change(change)?;
    let lasts = with(lasts, &parts.sources, ended)?;
    Ok((parts, lasts))
}
