//! The prefixes of a list one after another, with their path identifiers.
ghost use Rattle.std.specs.Iterator.{YieldsFirst, item_count};

use crate::Nlri;
use crate::packed::{Form, unpack};
use std::marker::Model;
use std::slice::Iter;

/// The prefixes of a list that are still to come.
#[derive(Drop)]
pub struct NlriIter<'a> {
    pub(crate) forms: Iter<'a, Form>,
    pub(crate) words: &'a [u64],
}

impl<'a> Model for NlriIter<'a> {
    ghost use Rattle.std.specs.Prelude.{List};
    ghost use Rattle.std.specs.Slice.Iter.{iter_rest};
    ghost use Rattle.path_model.specs.declared.nlri.Nlri.{Nlri as AnyNlri};
    ghost use Rattle.path_model.specs.Packed.{unpacked, ArePacked};

    ghost Value = { List AnyNlri };

    ghost view = { λ p. unpacked (iter_rest p.forms) p.words.now };

    ghost invariant = { λ p. ArePacked (iter_rest p.forms) p.words.now };
}

impl<'a> Iterator for NlriIter<'a> {
    type Item = Nlri;

    ghost next_gives = { YieldsFirst (λ left. left) };

    ghost remaining = { item_count (λ left. left) };

    fn next(&mut self) -> Option<Nlri> {
        let form = self.forms.next()?;
        let (nlri, words) = unpack(*form, self.words);
        self.words = words;
        Some(nlri)
    }
}
