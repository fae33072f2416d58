//! Several attestations of one customer.
ghost use Rattle.std.specs.Prelude.{◌≡◌};
ghost use Rattle.attestations.specs.Held.{all_of};
ghost use Rattle.attestations.specs.Terms.{members, set_of};

use crate::Term;
use std::marker::Model;

/// A finite set of attestations of one customer, as the list of these in their order.
#[derive(Debug, Drop)]
pub(crate) struct TermSet {
    terms: Vec<Term>,
}

impl Model for TermSet {
    ghost use Rattle.std.specs.List.Sorted.{IsStrictlySortedBy};
    ghost use Rattle.attestations.specs.Codes.{coded_set_of_terms};
    ghost use Rattle.attestations.specs.Terms.{SetOfTerms, set_of, term_cmp};

    ghost Value = { SetOfTerms };

    ghost coded = { coded_set_of_terms };

    ghost view = { λ a. set_of a.terms.items };

    ghost invariant = { λ a. IsStrictlySortedBy term_cmp a.terms.items };
}

impl TermSet {
    /// The set of a list of attestations, in any order and with repeats. It takes no memory.
    pub(crate) fn of(terms: Vec<Term>) -> TermSet
        ensures { result ≡ set_of terms.items }
    {
        let mut terms = terms;
        terms.sort_unstable();
        terms.dedup();
        TermSet { terms }
    }

    /// All of them, in their order.
    pub(crate) fn as_slice(&self) -> &[Term]
        ensures { result.now ≡ members self.now }
    {
        self.terms.as_slice()
    }

    /// The only one of them, or else all of them. It takes no memory.
    pub(crate) fn into_only(self) -> Result<Term, TermSet>
        ensures { all_of result ≡ self }
    {
        let mut terms = self.terms;
        if terms.len() == 1 {
            if let Some(term) = terms.pop() {
                return Ok(term);
            }
        }
        Err(TermSet { terms })
    }
}
