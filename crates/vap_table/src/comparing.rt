//! Which customers new attestations of a source name: those whose attestations there aren't the ones that they have.
ghost use Rattle.std.specs.Prelude.{◌≡◌, ◌⊎◌, ℕ, nat_eq, true, false, Some, [], ◌||◌, is_some, IsTrue, IsFalse, OnOk, IfOk};
ghost use Rattle.std.specs.FinMap as map;
ghost use Rattle.std.specs.Option.{option_copied};
ghost use Rattle.attestations.specs.Attested.{attested_list, listed};
ghost use Rattle.path_model.specs.Authority.{has};
ghost use Rattle.vap_table.specs.Change.{terms_in};
ghost use Rattle.vap_table.specs.Comparing.{lists_of, set_if, IsLeft, IsLeftOrLasting, HaveSameLasts, NeverEnd};
ghost use Rattle.vap_table.specs.Sources.{list_of, terms_or_empty};

use crate::customers::Customers;
use crate::parts::HeldParts;
use attestations::{Attested, Term, Terms};
use av_base::NoMemory;
use path_model::{Name, Patch};
use std::alloc::Global;

/// The customers that a change names.
#[derive(Debug, Drop)]
pub(crate) struct Named {
    /// All of them: what attests or filters any other customer stays as it is.
    pub(crate) all: Customers,
    /// Those with an attestation that has an end, before the change or after it. The last moments of all others stay as they are.
    pub(crate) ended: Customers,
}

impl Named {
    /// These, for a change that leaves all attestations as they are.
    pub(crate) fn unended(alloc: Global, all: Customers) -> Named
        ensures all { result.all ≡ all }
        ensures ended { result.ended ≡ [] }
    {
        Named {
            all,
            ended: Customers::new(alloc),
        }
    }

    /// One customer alone, for such a change.
    pub(crate) fn one(alloc: Global, customer: u32) -> Result<Named, NoMemory>
        ensures { IfOk result (λ names. (q : ℕ) → has names.all q ≡ nat_eq customer q) }
    {
        let names = Customers::one(alloc, customer)?;
        Ok(Named::unended(alloc, names))
    }

    // Names a customer with these attestations. It costs what there are.
    fn add(&mut self, customer: u32, attested: Option<Attested<'_>>) -> Result<(), NoMemory>
        ensures all { OnOk result ((q : ℕ)
            → has self.new.all q ≡ (has self.old.all q || nat_eq customer q)) }
        ensures ended { OnOk result ((q : ℕ) → has self.new.ended q ≡ false
            → (has self.old.ended q ≡ false)
            × (nat_eq customer q ≡ true → NeverEnd (attested_list attested.entry))) }
    {
        self.all.insert(customer)?;
        if may_end(attested) {
            self.ended.insert(customer)?;
        }
        Ok(())
    }

    // Names a customer with these attestations, unless the other ones are the same.
    fn add_if_differs(
        &mut self,
        customer: u32,
        attested: Attested<'_>,
        other: Option<Attested<'_>>,
    ) -> Result<(), NoMemory>
        ensures all { OnOk result ((q : ℕ) → has self.new.all q ≡ false
            → (has self.old.all q ≡ false)
            × (nat_eq customer q ≡ true
            → IsLeft (Some (listed attested.entry)) (set_if other.entry))) }
        ensures ended { OnOk result ((q : ℕ) → has self.new.ended q ≡ false
            → (has self.old.ended q ≡ false)
            × (nat_eq customer q ≡ true
            → IsLeftOrLasting (Some (listed attested.entry)) (set_if other.entry))) }
    {
        if is_same(attested, other) {
            return Ok(());
        }
        self.add(customer, Some(attested))
    }

    // Names the customers of these attestations that don't have the same ones among the others.
    fn add_differing(&mut self, terms: &Terms, others: &Terms) -> Result<(), NoMemory>
        ensures all { OnOk result ((q : ℕ) → has self.new.all q ≡ false
            → (has self.old.all q ≡ false)
            × IsLeft (lists_of terms.now q) (map.get others.now q)) }
        ensures ended { OnOk result ((q : ℕ) → has self.new.ended q ≡ false
            → (has self.old.ended q ≡ false)
            × IsLeftOrLasting (lists_of terms.now q) (map.get others.now q)) }
    {
        for (customer, attested) in terms.entries() {
            self.add_if_differs(customer, attested, others.of_customer(customer))?;
        }
        Ok(())
    }
}

impl HeldParts {
    /// Those whose attestations in the source aren't the new ones.
    pub(crate) fn named_by_terms(&self, name: &Name, terms: &Terms) -> Result<Named, NoMemory>
        ensures all { IfOk result (λ names. (q : ℕ) → has names.all q ≡ false
            → map.get (terms_in self.now.sources name.now) q ≡ map.get terms.now q) }
        ensures ended { IfOk result (λ names. (q : ℕ) → has names.ended q ≡ false
            → HaveSameLasts (list_of (terms_in self.now.sources name.now) q)
            (list_of terms.now q)) }
    {
        let mut names = Named::unended(self.alloc, Customers::new(self.alloc));
        let none = Terms::new(self.alloc);
        let held = terms_or(self.sources.terms(name), &none);
        names.add_differing(held, terms)?;
        names.add_differing(terms, held)?;
        Ok(names)
    }

    /// Those that the patch names.
    pub(crate) fn named_by_patch(&self, name: &Name, patch: &Patch) -> Result<Named, NoMemory>
        ensures all { IfOk result (λ names. (q : ℕ)
            → has names.all q ≡ is_some (map.get patch.now q)) }
        ensures ended { IfOk result (λ names. (q : ℕ) → has names.ended q ≡ false
            → is_some (map.get patch.now q) ≡ true
            → NeverEnd (list_of (terms_in self.now.sources name.now) q)) }
    {
        let none = Terms::new(self.alloc);
        let held = terms_or(self.sources.terms(name), &none);
        let names = named_among(self.alloc, held, patch)?;
        Ok(names)
    }
}

// The attestations, or else the others.
fn terms_or<'a>(terms: Option<&'a Terms>, other: &'a Terms) -> &'a Terms
    requires { other.now ≡ map.empty }
    ensures { result.now ≡ terms_or_empty (option_copied terms.entry) }
{
    match terms {
        Some(terms) => terms,
        None => other,
    }
}

// Those that the patch names, of which a source has these attestations.
fn named_among(alloc: Global, terms: &Terms, patch: &Patch) -> Result<Named, NoMemory>
    ensures all { IfOk result (λ names. (q : ℕ)
        → has names.all q ≡ is_some (map.get patch.now q)) }
    ensures ended { IfOk result (λ names. (q : ℕ) → has names.ended q ≡ false
        → is_some (map.get patch.now q) ≡ true → NeverEnd (list_of terms.now q)) }
{
    let mut names = Named::unended(alloc, Customers::new(alloc));
    for (customer, _) in patch.entries() {
        names.add(customer, terms.of_customer(customer))?;
    }
    Ok(names)
}

// Whether the other attestations are there and are the same.
fn is_same(attested: Attested<'_>, other: Option<Attested<'_>>) -> bool
    ensures { IsTrue result → IsLeft (Some (listed attested.entry)) (set_if other.entry) }
{
    match other {
        None => false,
        Some(other) => attested.is_same(other),
    }
}

// Whether one of these attestations has an end.
fn may_end(attested: Option<Attested<'_>>) -> bool
    ensures { IsFalse result → NeverEnd (attested_list attested.entry) }
{
    match attested {
        Some(Attested::Terms(terms)) => has_end(terms),
        Some(Attested::Row(_)) => false,
        None => false,
    }
}

// Whether one of these has an end.
fn has_end(terms: &[Term]) -> bool
    ensures { IsFalse result → NeverEnd terms.now }
{
    terms.iter().any(|term| term.until.is_some())
}
