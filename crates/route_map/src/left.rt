//! What is left of a peer's routes, where the next one may have been looked at.
ghost use Rattle.std.specs.Prelude.{◌≡◌, IfNone, IfSome};
ghost use Rattle.std.specs.Iterator.{YieldsFirstBy, item_count};
ghost use Rattle.route_map.specs.Merged.{first_nlri, GivesBelow, IsNotBelow};

use crate::boxed_iter::BoxedIter;
use crate::plain_iter::PlainIter;
use path_model::Nlri;
use std::cmp::Ordering;
use std::marker::Model;

// Those without a path identifier.
#[derive(Drop)]
pub(crate) struct PlainLeft<'a, V> {
    // the next one, where it was looked at and not given yet
    kept: Option<(Nlri, &'a V)>,
    rest: PlainIter<'a, V>,
}

impl<'a, V> Model for PlainLeft<'a, V> {
    ghost use Rattle.std.specs.Prelude.{List};
    ghost use Rattle.path_model.specs.declared.nlri.Nlri.{Nlri};
    ghost use Rattle.route_map.specs.Merged.{before, seen};

    ghost Value = { List (Nlri × V) };

    ghost view = { λ i. before (seen i.kept) i.rest };
}

impl<'a, V> PlainLeft<'a, V> {
    // All these.
    pub(crate) fn of(rest: PlainIter<'a, V>) -> PlainLeft<'a, V>
        ensures { result ≡ rest.entry }
    {
        PlainLeft { kept: None, rest }
    }

    // The next one, if it is below this.
    pub(crate) fn next_below(&mut self, nlri: &Nlri) -> Option<(Nlri, &'a V)>
        ensures some { IfSome result (GivesBelow self.old nlri.now self.new) }
        ensures none { IfNone result (IsNotBelow self.old nlri.now self.new) }
    {
        match self.kept.take() {
            None => match self.rest.next() {
                None => None,
                Some(next) => match next.0.cmp(nlri) {
                    Ordering::Less => Some(next),
                    _ => {
                        self.kept = Some(next);
                        None
                    }
                },
            },
            Some(next) => match next.0.cmp(nlri) {
                Ordering::Less => Some(next),
                _ => {
                    self.kept = Some(next);
                    None
                }
            },
        }
    }
}

impl<'a, V> Iterator for PlainLeft<'a, V> {
    type Item = (Nlri, &'a V);

    ghost next_gives = { YieldsFirstBy (λ e. (e.0, e.1.now)) (λ left. left) };

    ghost remaining = { item_count (λ left. left) };

    #[inline(always)]
    fn next(&mut self) -> Option<(Nlri, &'a V)> {
        match self.kept.take() {
            None => self.rest.next(),
            Some(next) => Some(next),
        }
    }
}

// Those with one.
#[derive(Drop)]
pub(crate) struct IdentifiedLeft<'a, V> {
    // the next one, if there is one
    next: Option<(Nlri, &'a V)>,
    rest: BoxedIter<'a, V>,
}

impl<'a, V> Model for IdentifiedLeft<'a, V> {
    ghost use Rattle.std.specs.Prelude.{List, ◌≡◌, [], None};
    ghost use Rattle.path_model.specs.declared.nlri.Nlri.{Nlri};
    ghost use Rattle.route_map.specs.Merged.{before, seen};

    ghost Value = { List (Nlri × V) };

    ghost view = { λ i. before (seen i.next) i.rest };

    ghost invariant = { λ i. seen i.next ≡ None → i.rest ≡ [] };
}

impl<'a, V> IdentifiedLeft<'a, V> {
    // All these.
    pub(crate) fn of(mut rest: BoxedIter<'a, V>) -> IdentifiedLeft<'a, V>
        ensures { result ≡ rest.entry }
    {
        let next = rest.next();
        IdentifiedLeft { next, rest }
    }

    // What the next one leads to, if there is one.
    #[inline(always)]
    pub(crate) fn first(&self) -> Option<Nlri>
        ensures { result ≡ first_nlri self.now }
    {
        match &self.next {
            None => None,
            Some(next) => Some(next.0),
        }
    }
}

impl<'a, V> Iterator for IdentifiedLeft<'a, V> {
    type Item = (Nlri, &'a V);

    ghost next_gives = { YieldsFirstBy (λ e. (e.0, e.1.now)) (λ left. left) };

    ghost remaining = { item_count (λ left. left) };

    #[inline(always)]
    fn next(&mut self) -> Option<(Nlri, &'a V)> {
        match self.next.take() {
            None => None,
            Some(next) => {
                self.next = self.rest.next();
                Some(next)
            }
        }
    }
}
