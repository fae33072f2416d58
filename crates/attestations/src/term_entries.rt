//! Customers with their attestations, one after another.
ghost use Rattle.std.specs.Prelude.{ℕ};
ghost use Rattle.std.specs.Iterator.{YieldsFirstBy, item_count};
ghost use Rattle.attestations.specs.Attested.{listed};
ghost use Rattle.attestations.specs.Entries.{terms_left};
ghost use Rattle.attestations.specs.declared.attested.Attested.{Attested};

use crate::term_set::TermSet;
use crate::{Attested, Term};
use path_model::RowEntries;
use std::collections::btree_map;
use std::slice;

/// The pairs of a customer and its attestations, each customer once, in no stated order.
#[derive(Drop)]
pub struct TermEntries<'a> {
    pub(crate) rows: RowEntries<'a>,
    pub(crate) single: btree_map::Iter<'a, u32, Term>,
    pub(crate) many: btree_map::Iter<'a, u32, TermSet>,
}

impl<'a> Iterator for TermEntries<'a> {
    type Item = (u32, Attested<'a>);

    ghost next_gives = { YieldsFirstBy (λ (i : ℕ × Attested). (i.0, listed i.1)) terms_left };

    ghost remaining = { item_count terms_left };

    fn next(&mut self) -> Option<(u32, Attested<'a>)> {
        match self.rows.next() {
            Some((customer, row)) => Some((customer, Attested::Row(row))),
            None => match self.single.next() {
                Some((customer, term)) => Some((*customer, Attested::Terms(slice::from_ref(term)))),
                None => match self.many.next() {
                    Some((customer, terms)) => Some((*customer, Attested::Terms(terms.as_slice()))),
                    None => None,
                },
            },
        }
    }
}
