//! The routes of one peer, one after another.
ghost use Rattle.std.specs.Prelude.{◌≡◌};
ghost use Rattle.std.specs.Iterator.{YieldsFirstBy, item_count};
ghost use Rattle.route_map.specs.Merged.{merged, AreTwo};

use crate::boxed_iter::BoxedIter;
use crate::left::{IdentifiedLeft, PlainLeft};
use crate::plain_iter::PlainIter;
use path_model::Nlri;
use std::marker::Model;

/// What one peer has routes to, in order, each with its value: those without a path identifier between those with one.
#[derive(Drop)]
pub struct NlriIter<'a, V> {
    plain: PlainLeft<'a, V>,
    identified: IdentifiedLeft<'a, V>,
}

impl<'a, V> Model for NlriIter<'a, V> {
    ghost use Rattle.std.specs.Prelude.{List};
    ghost use Rattle.path_model.specs.declared.nlri.Nlri.{Nlri};
    ghost use Rattle.route_map.specs.Merged.{merged, AreTwo};

    ghost Value = { List (Nlri × V) };

    ghost view = { λ i. merged i.plain i.identified };

    ghost invariant = { λ i. AreTwo i.plain i.identified };
}

impl<'a, V> NlriIter<'a, V> {
    // All these.
    pub(crate) fn of(plain: PlainIter<'a, V>, identified: BoxedIter<'a, V>) -> NlriIter<'a, V>
        requires { AreTwo plain identified }
        ensures { result ≡ merged plain.entry identified.entry }
    {
        NlriIter {
            plain: PlainLeft::of(plain),
            identified: IdentifiedLeft::of(identified),
        }
    }
}

impl<'a, V> Iterator for NlriIter<'a, V> {
    type Item = (Nlri, &'a V);

    ghost next_gives = { YieldsFirstBy (λ e. (e.0, e.1.now)) (λ left. left) };

    ghost remaining = { item_count (λ left. left) };

    #[inline(always)]
    fn next(&mut self) -> Option<(Nlri, &'a V)> {
        match self.identified.first() {
            None => self.plain.next(),
            Some(nlri) => match self.plain.next_below(&nlri) {
                Some(plain) => Some(plain),
                None => self.identified.next(),
            },
        }
    }
}
