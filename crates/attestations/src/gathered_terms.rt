//! Attestations that are gathered before they become sets.
ghost use Rattle.std.specs.Prelude.{◌≡◌, IfOk, OnOk, OnErr};
ghost use Rattle.std.specs.FinMap as map;
ghost use Rattle.std.specs.List.Sorted.{IsStrictlyIncreasing};
ghost use Rattle.attestations.specs.Gathered.{AreTermsOf, with_gathered};

use crate::term_list::TermList;
use crate::{Term, Terms};
use av_base::NoMemory;
use path_model::AsList;
use std::alloc::Global;
use std::collections::BTreeMap;
use std::marker::Model;

/// From customers to lists of attestations, each list in the order in which it came, repeats and all.
///
/// Many attestations of one customer are gathered in the time of their own lengths. A customer with one attestation takes here what it
/// takes in a [`Terms`].
#[derive(Debug, Drop)]
pub struct GatheredTerms {
    alloc: Global,
    // the first attestation of each customer
    firsts: Terms,
    // the others of those that have several
    others: BTreeMap<u32, TermList>,
}

impl Model for GatheredTerms {
    ghost use Rattle.attestations.specs.Codes.{coded_term_lists};
    ghost use Rattle.attestations.specs.Gathered.{TermLists};
    ghost use Rattle.attestations.specs.Held.{gathered};

    ghost Value = { TermLists };

    ghost coded = { coded_term_lists };

    ghost view = { λ a. gathered a.firsts a.others.entries };
}

impl GatheredTerms {
    /// Nothing gathered. It takes no memory.
    pub fn new(alloc: Global) -> GatheredTerms
        ensures { result ≡ map.empty }
    {
        GatheredTerms {
            alloc,
            firsts: Terms::new(alloc),
            others: BTreeMap::new(alloc),
        }
    }

    /// Appends to the list of a customer an attestation of providers that strictly ascend.
    pub fn gather(
        &mut self,
        customer: u32,
        providers: &[u32],
        until: Option<u32>,
    ) -> Result<(), NoMemory>
        requires { IsStrictlyIncreasing providers.now }
        ensures ok { OnOk result (self.new ≡ with_gathered self.old customer
            (record { providers = providers.now; until = until })) }
        ensures err { OnErr result (self.new ≡ self.old) }
    {
        let term = Term {
            providers: AsList::from_slice(self.alloc, providers)?,
            until,
        };
        match self.others.get_mut(&customer) {
            Some(list) => list.push(term),
            None => match self.firsts.of_customer(customer) {
                Some(_) => {
                    let list = TermList::one(self.alloc, term)?;
                    self.others.insert(customer, list)?;
                    Ok(())
                }
                None => self.firsts.set_only(customer, term),
            },
        }
    }

    /// The attestations: each customer's are the set of its list.
    pub fn into_terms(self) -> Result<Terms, NoMemory>
        ensures { IfOk result (AreTermsOf self) }
    {
        let GatheredTerms { firsts, others, .. } = self;
        let mut terms = firsts;
        for (customer, list) in others {
            terms.unite_list(customer, list)?;
        }
        Ok(terms)
    }
}
