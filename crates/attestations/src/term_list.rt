//! Attestations of one customer as a list.
ghost use Rattle.std.specs.Prelude.{◌≡◌, ◌++◌, ◌∷◌, [], IfOk, OnOk, OnErr};
ghost use Rattle.std.specs.List.Sorted.{IsStrictlyIncreasing};
ghost use Rattle.attestations.specs.Attested.{attested_list};
ghost use Rattle.attestations.specs.Terms.{HaveSetsOfProviders, members, set_of};

use crate::term_set::TermSet;
use crate::{Attested, Term};
use av_base::NoMemory;
use std::alloc::Global;
use std::marker::Model;

/// Attestations in the order in which they came, repeats and all.
#[derive(Debug, Drop)]
pub(crate) struct TermList {
    terms: Vec<Term>,
}

impl Model for TermList {
    ghost use Rattle.std.specs.Prelude.{List};
    ghost use Rattle.attestations.specs.declared.term.Term.{Term};
    ghost use Rattle.attestations.specs.Terms.{HaveSetsOfProviders};

    ghost Value = { List Term };

    ghost view = { λ a. a.terms.items };

    ghost invariant = { λ a. HaveSetsOfProviders a.terms.items };
}

impl TermList {
    /// An empty list. It takes no memory.
    pub(crate) fn new(alloc: Global) -> TermList
        ensures { result ≡ [] }
    {
        TermList {
            terms: Vec::new(alloc),
        }
    }

    /// A list of one, whose providers strictly ascend.
    pub(crate) fn one(alloc: Global, term: Term) -> Result<TermList, NoMemory>
        requires { IsStrictlyIncreasing term.providers }
        ensures { IfOk result (λ list. list ≡ term ∷ []) }
    {
        let mut list = TermList::new(alloc);
        list.push(term)?;
        Ok(list)
    }

    /// A copy of what is lent, if there is anything.
    pub(crate) fn copied(
        alloc: Global,
        attested: Option<Attested<'_>>,
    ) -> Result<TermList, NoMemory>
        requires { HaveSetsOfProviders (attested_list attested) }
        ensures { IfOk result (λ list. list ≡ attested_list attested.entry) }
    {
        match attested {
            None => Ok(TermList::new(alloc)),
            Some(Attested::Row(row)) => {
                let providers = row.copy()?;
                let until = None;
                TermList::one(alloc, Term { providers, until })
            }
            Some(Attested::Terms(terms)) => Ok(TermList {
                terms: Vec::from_clones(alloc, terms)?,
            }),
        }
    }

    /// One more at the end, whose providers strictly ascend.
    pub(crate) fn push(&mut self, term: Term) -> Result<(), NoMemory>
        requires { IsStrictlyIncreasing term.providers }
        ensures ok { OnOk result (self.new ≡ self.old ++ term ∷ []) }
        ensures err { OnErr result (self.new ≡ self.old) }
    {
        self.terms.push(term)?;
        Ok(())
    }

    /// All of another list at the end.
    pub(crate) fn append(&mut self, other: TermList) -> Result<(), NoMemory>
        ensures ok { OnOk result (self.new ≡ self.old ++ other) }
    {
        let mut other = other;
        self.terms.append(&mut other.terms)?;
        Ok(())
    }

    /// The set of them. It takes no memory.
    pub(crate) fn into_set(self) -> TermSet
        ensures whole { result ≡ set_of self }
        ensures sets { HaveSetsOfProviders (members result) }
    {
        TermSet::of(self.terms)
    }
}
