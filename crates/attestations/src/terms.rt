//! Attestations by customer, each with its end.
ghost use Rattle.std.specs.Prelude.{◌≡◌, nat_eq, IfOk, OnOk, OnErr};
ghost use Rattle.std.specs.FinMap as map;
ghost use Rattle.std.specs.List.{IsDistinct};
ghost use Rattle.std.specs.List.Sorted.{IsStrictlyIncreasing};
ghost use Rattle.std.specs.Map.{keys_of};
ghost use Rattle.std.specs.Option.{option_map};
ghost use Rattle.attestations.specs.Attested.{attested_list, listed};
ghost use Rattle.attestations.specs.Entries.{AreEntriesOf, terms_left};
ghost use Rattle.attestations.specs.Held.{with_list};
ghost use Rattle.attestations.specs.Terms.{AllHaveSets, HaveSetsOfProviders, UnitesTerm, members, never_ending, only, set_of, terms_of, terms_or_none};

use crate::term_list::TermList;
use crate::term_set::TermSet;
use crate::{Attested, Term, TermEntries};
use av_base::NoMemory;
use path_model::{AsList, Rows};
use std::alloc::Global;
use std::collections::BTreeMap;
use std::marker::Model;
use std::slice;

/// A finite map from customer ASes to finite sets of attestations: what one source attests.
///
/// A customer whose only attestation never ends takes what its row takes in [`Rows`]; one whose only attestation ends takes 8 bytes more.
#[derive(Debug, Drop)]
pub struct Terms {
    alloc: Global,
    // those of customers whose only attestation never ends
    rows: Rows,
    // those of customers with one attestation
    single: BTreeMap<u32, Term>,
    // those of all other customers
    many: BTreeMap<u32, TermSet>,
}

impl Model for Terms {
    ghost use Rattle.attestations.specs.Codes.{coded_terms};
    ghost use Rattle.attestations.specs.Held.{IsHeld, held};
    ghost use Rattle.attestations.specs.Terms.{TermMap};

    ghost Value = { TermMap };

    ghost coded = { coded_terms };

    ghost view = { λ a. held a.rows a.single.entries a.many.entries };

    ghost invariant = { λ a. IsHeld a.rows a.single.entries a.many.entries };
}

impl Terms {
    /// No attestations. It takes no memory.
    pub fn new(alloc: Global) -> Terms
        ensures { result ≡ map.empty }
    {
        Terms {
            alloc,
            rows: Rows::new(alloc),
            single: BTreeMap::new(alloc),
            many: BTreeMap::new(alloc),
        }
    }

    /// Each row as one attestation that never ends. It takes no memory, and no time for each row.
    pub fn of(alloc: Global, rows: Rows) -> Result<Terms, NoMemory>
        ensures { IfOk result (λ terms. terms ≡ terms_of rows) }
    {
        // a call that says that they are sets
        let _ = rows.entries();
        Ok(Terms {
            alloc,
            rows,
            single: BTreeMap::new(alloc),
            many: BTreeMap::new(alloc),
        })
    }

    /// The attestations of a customer; `None` exactly where it has none. It costs three ordered look-ups at most.
    pub fn of_customer(&self, customer: u32) -> Option<Attested<'_>>
        ensures given { option_map (λ a. set_of (listed a)) result ≡ map.get self.now customer }
        ensures whole { attested_list result ≡ members (terms_or_none (map.get self.now customer)) }
        ensures sets { HaveSetsOfProviders (attested_list result) }
    {
        match self.rows.row(customer) {
            Some(row) => Some(Attested::Row(row)),
            None => match self.single.get(&customer) {
                Some(term) => Some(Attested::Terms(slice::from_ref(term))),
                None => match self.many.get(&customer) {
                    Some(terms) => Some(Attested::Terms(terms.as_slice())),
                    None => None,
                },
            },
        }
    }

    /// The pairs of a customer and its attestations, each customer once, in no stated order. It takes no memory.
    pub fn entries(&self) -> TermEntries<'_>
        ensures whole { AreEntriesOf self.now (terms_left result) }
        ensures once { IsDistinct nat_eq (keys_of (terms_left result)) }
        ensures sets { AllHaveSets self.now }
    {
        TermEntries {
            rows: self.rows.entries(),
            single: self.single.iter(),
            many: self.many.iter(),
        }
    }

    /// Adds one attestation of a customer, of providers in any order and with repeats. It costs what the customer has.
    pub fn unite(
        &mut self,
        customer: u32,
        providers: &[u32],
        until: Option<u32>,
    ) -> Result<(), NoMemory>
        ensures ok { OnOk result (UnitesTerm self.old customer providers.now until self.new) }
        ensures err { OnErr result (self.new ≡ self.old) }
    {
        let providers = AsList::from_slice(self.alloc, providers)?.into_set();
        let list = TermList::one(self.alloc, Term { providers, until })?;
        self.unite_list(customer, list)
    }

    /// Gives a customer one attestation that never ends, of providers that strictly ascend, in place of those that it had.
    pub fn set_row(&mut self, customer: u32, row: AsList) -> Result<(), NoMemory>
        requires { IsStrictlyIncreasing row }
        ensures ok { OnOk result (self.new ≡ map.insert self.old customer (never_ending row)) }
        ensures err { OnErr result (self.new ≡ self.old) }
    {
        self.rows.set(customer, row)?;
        self.single.remove(&customer);
        self.many.remove(&customer);
        Ok(())
    }

    /// Takes the attestations of a customer away, if it has any. It takes no memory.
    pub fn remove(&mut self, customer: u32)
        ensures { self.new ≡ map.remove self.old customer }
    {
        self.rows.remove(customer);
        self.single.remove(&customer);
        self.many.remove(&customer);
    }

    /// Adds attestations of a customer.
    pub(crate) fn unite_list(&mut self, customer: u32, list: TermList) -> Result<(), NoMemory>
        ensures ok { OnOk result (self.new ≡ with_list self.old customer list) }
        ensures err { OnErr result (self.new ≡ self.old) }
    {
        let mut whole = TermList::copied(self.alloc, self.of_customer(customer))?;
        whole.append(list)?;
        self.set_all(customer, whole.into_set())
    }

    // Gives a customer these attestations in place of those that it had.
    fn set_all(&mut self, customer: u32, terms: TermSet) -> Result<(), NoMemory>
        requires { HaveSetsOfProviders (members terms) }
        ensures ok { OnOk result (self.new ≡ map.insert self.old customer terms) }
        ensures err { OnErr result (self.new ≡ self.old) }
    {
        match terms.into_only() {
            Ok(term) => self.set_only(customer, term),
            Err(terms) => self.set_many(customer, terms),
        }
    }

    /// Gives a customer one attestation, of providers that strictly ascend, in place of those that it had.
    pub(crate) fn set_only(&mut self, customer: u32, term: Term) -> Result<(), NoMemory>
        requires { IsStrictlyIncreasing term.providers }
        ensures ok { OnOk result (self.new ≡ map.insert self.old customer (only term)) }
        ensures err { OnErr result (self.new ≡ self.old) }
    {
        match term.until {
            None => self.set_row(customer, term.providers),
            Some(_) => self.set_single(customer, term),
        }
    }

    // The same for an attestation that isn't kept as a row.
    fn set_single(&mut self, customer: u32, term: Term) -> Result<(), NoMemory>
        requires { IsStrictlyIncreasing term.providers }
        ensures ok { OnOk result (self.new ≡ map.insert self.old customer (only term)) }
        ensures err { OnErr result (self.new ≡ self.old) }
    {
        self.single.insert(customer, term)?;
        self.rows.remove(customer);
        self.many.remove(&customer);
        Ok(())
    }

    // Gives a customer several attestations in place of those that it had.
    fn set_many(&mut self, customer: u32, terms: TermSet) -> Result<(), NoMemory>
        requires { HaveSetsOfProviders (members terms) }
        ensures ok { OnOk result (self.new ≡ map.insert self.old customer terms) }
        ensures err { OnErr result (self.new ≡ self.old) }
    {
        self.many.insert(customer, terms)?;
        self.rows.remove(customer);
        self.single.remove(&customer);
        Ok(())
    }
}
