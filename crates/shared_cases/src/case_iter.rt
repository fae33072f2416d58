//! The cases, one after another.
ghost use Rattle.std.specs.Prelude.{◌≡◌, ◌<◌, ◌^◌, length};
ghost use Rattle.std.specs.Iterator.{YieldsFirstBy, item_count};
ghost use Rattle.shared_cases.specs.Listed.{cases_of, shown};

use crate::SharedCases;
use crate::case::{Case, StoredCase};
use std::marker::Model;

/// The cases that are still to come, by rising number.
#[derive(Drop)]
pub struct CaseIter<'a> {
    pub(crate) rest: slab::Iter<'a, StoredCase>,
}

impl<'a> Model for CaseIter<'a> {
    ghost use Rattle.std.specs.Prelude.{List, map};
    ghost use Rattle.shared_cases.specs.Listed.{Listed, listed};

    ghost Value = { List Listed };

    ghost view = { λ i. map (λ e. listed e.1) i.rest };
}

impl<'a> Iterator for CaseIter<'a> {
    type Item = Case<'a>;

    ghost next_gives = { YieldsFirstBy shown (λ left. left) };

    ghost remaining = { item_count (λ left. left) };

    fn next(&mut self) -> Option<Case<'a>> {
        match self.rest.next() {
            None => None,
            Some((_, case)) => Some(Case::of(case)),
        }
    }
}

impl SharedCases {
    /// The cases that there are, by rising number. It takes no memory. To go over all of them takes a step for each number that was ever in
    /// use.
    pub fn iter(&self) -> CaseIter<'_>
        ensures cases { result ≡ cases_of self.now }
        ensures few { length result < 2 ^ 64 }
    {
        let rest = self.slab.iter();
        let _length = rest.len();
        CaseIter { rest }
    }
}
