//! The last moments at which attestations are alive, with their customers.
ghost use Rattle.std.specs.Prelude.{◌≡◌, ◌≤◌, ◌∷◌, ℕ, true, false, [], IfOk, OnOk};
ghost use Rattle.path_model.specs.Authority.{has};
ghost use Rattle.vap_table.specs.Lasts.{SetsLast, AddsLasts, DropsLasts, HasNoneBetween, HasOneBetween, IsLastOf};

use crate::customers::Customers;
use attestations::Term;
use av_base::NoMemory;
use std::alloc::Global;
use std::collections::BTreeSet;
use std::marker::Model;

/// The last moments of attestations with an end, each with its customer, by rising moment. A pair takes some 12 bytes. An attestation
/// that is never alive, as its end is 0, has no last moment.
#[derive(Debug, Drop)]
pub(crate) struct Lasts {
    pairs: BTreeSet<(u32, u32)>,
}

impl Model for Lasts {
    ghost use Rattle.std.specs.Prelude.{List, ℕ};

    ghost Value = { List (ℕ × ℕ) };

    ghost view = { λ a. a.pairs.keys };
}

impl Lasts {
    /// None. It takes no memory.
    pub(crate) fn new(alloc: Global) -> Lasts
        ensures { result ≡ [] }
    {
        Lasts {
            pairs: BTreeSet::new(alloc),
        }
    }

    // The moment is a last one of the customer.
    fn insert(&mut self, customer: u32, moment: u32) -> Result<(), NoMemory>
        ensures { OnOk result (SetsLast self.old customer moment true self.new) }
    {
        self.pairs.insert((moment, customer))?;
        Ok(())
    }

    // The moment is no last one of the customer. It takes no memory.
    fn remove(&mut self, customer: u32, moment: u32)
        ensures { SetsLast self.old customer moment false self.new }
    {
        self.pairs.remove(&(moment, customer));
    }

    // The last moment of an attestation of the customer is listed, if it has one.
    fn add_term(&mut self, customer: u32, term: &Term) -> Result<(), NoMemory>
        ensures { OnOk result (AddsLasts self.old customer (term.now ∷ []) self.new) }
    {
        match last_of(term) {
            Some(moment) => self.insert(customer, moment),
            None => Ok(()),
        }
    }

    // It isn't listed.
    fn drop_term(&mut self, customer: u32, term: &Term)
        ensures { DropsLasts self.old customer (term.now ∷ []) self.new }
    {
        match last_of(term) {
            Some(moment) => self.remove(customer, moment),
            None => {}
        }
    }

    /// The last moments of these attestations of the customer are listed.
    pub(crate) fn add(&mut self, customer: u32, terms: &[Term]) -> Result<(), NoMemory>
        ensures { OnOk result (AddsLasts self.old customer terms.now self.new) }
    {
        for term in terms {
            self.add_term(customer, term)?;
        }
        Ok(())
    }

    /// They aren't listed.
    pub(crate) fn remove_all(&mut self, customer: u32, terms: &[Term])
        ensures { DropsLasts self.old customer terms.now self.new }
    {
        for term in terms {
            self.drop_term(customer, term);
        }
    }

    /// Exactly the customers with a last moment from the lower one to before the higher one. It visits these alone.
    pub(crate) fn between(
        &self,
        alloc: Global,
        lower: u32,
        higher: u32,
    ) -> Result<Customers, NoMemory>
        requires { lower ≤ higher }
        ensures others { IfOk result (λ names. (q : ℕ) → has names q ≡ false
            → HasNoneBetween self.now lower higher q) }
        ensures named { IfOk result (λ names. (q : ℕ) → has names q ≡ true
            → HasOneBetween self.now lower higher q) }
    {
        let mut names = Customers::new(alloc);
        for pair in self.pairs.range((lower, 0)..(higher, 0)) {
            names.insert(pair.1)?;
        }
        Ok(names)
    }
}

// The last moment at which an attestation is alive; none where it never ends or is never alive.
fn last_of(term: &Term) -> Option<u32>
    ensures { IsLastOf result term.now.until }
{
    match term.until {
        None => None,
        Some(end) => end.checked_sub(1),
    }
}
