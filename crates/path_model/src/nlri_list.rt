//! Lists of prefixes, with their path identifiers.
ghost use Rattle.std.specs.Prelude.{◌≡◌, Some, None, [], ◌∷◌, ◌++◌, length, IfOk, OnOk, OnErr, IsTrue, ◌↔◌};
ghost use Rattle.path_model.specs.Halves.{IsHeld};
ghost use Rattle.path_model.specs.Packed.{nlri_at, nlri_from, words_of, IsNlriAt};

use crate::packed::{Form, Held, Width};
use crate::{Nlri, NlriIter};
use av_base::NoMemory;
use std::alloc::{AllocError, Global};
use std::marker::Model;

/// A list of prefixes, some with a path identifier. It takes 48 bytes, and 11 more for each prefix that it has room for; an IPv6 prefix of
/// more than 64 bits takes 8 more, and so does a path identifier.
#[derive(Debug, Drop)]
pub struct NlriList {
    forms: Vec<Form>,
    // those of all forms, one after another
    words: Vec<u64>,
}

impl Model for NlriList {
    ghost use Rattle.std.specs.Prelude.{List};
    ghost use Rattle.path_model.specs.declared.nlri.Nlri.{Nlri as AnyNlri};
    ghost use Rattle.path_model.specs.Packed.{unpacked, ArePacked};

    ghost Value = { List AnyNlri };

    ghost view = { λ p. unpacked p.forms.items p.words.items };

    ghost invariant = { λ p. ArePacked p.forms.items p.words.items };
}

impl NlriList {
    /// An empty list. It takes no memory.
    pub fn new(alloc: Global) -> NlriList
        ensures { result ≡ [] }
    {
        NlriList {
            forms: Vec::new(alloc),
            words: Vec::new(alloc),
        }
    }

    /// An empty list with room for so many prefixes of one word: of IPv4, or of IPv6 with up to 64 bits.
    pub fn with_capacity(alloc: Global, number: usize) -> Result<NlriList, NoMemory>
        ensures { IfOk result (λ list. list ≡ []) }
    {
        Ok(NlriList {
            forms: Vec::with_capacity(alloc, number)?,
            words: Vec::with_capacity(alloc, number)?,
        })
    }

    /// Appends a prefix, with its path identifier if it has one.
    pub fn push(&mut self, nlri: Nlri) -> Result<(), NoMemory>
        ensures ok { OnOk result (self.new ≡ self.old ++ nlri ∷ []) }
        ensures err { OnErr result (self.new ≡ self.old) }
    {
        let held = nlri.prefix.held();
        match nlri.path {
            None => self.push_bare(held),
            Some(path) => self.push_identified(path, held),
        }
    }

    /// The number of prefixes.
    #[tactic(auto, using(crate::proofs::PackedLemmas::length_unpacked))]
    pub fn len(&self) -> usize
        ensures { result ≡ length self.now }
    {
        self.forms.len()
    }

    /// Whether there are none.
    pub fn is_empty(&self) -> bool
        ensures { IsTrue result ↔ (self.now ≡ []) }
    {
        self.len() == 0
    }

    /// The prefixes one after another.
    pub fn iter(&self) -> NlriIter<'_>
        ensures { result ≡ self.now }
    {
        NlriIter {
            forms: self.forms.iter(),
            words: self.words.as_slice(),
        }
    }

    // Appends a prefix without an identifier.
    fn push_bare(&mut self, held: Held) -> Result<(), NoMemory>
        requires { IsHeld held.six held.high held.low held.len }
        ensures ok { OnOk result (self.new ≡ self.old ++ nlri_from held None ∷ []) }
        ensures err { OnErr result (self.new ≡ self.old) }
    {
        if !held.six {
            self.append(Form::bare(Width::Four(held.len)), &[held.low])
        } else if held.low == 0 {
            self.append(Form::bare(Width::High(held.len)), &[held.high])
        } else {
            self.append(Form::bare(Width::Both(held.len)), &[held.high, held.low])
        }
    }

    // Appends a prefix with its identifier.
    fn push_identified(&mut self, path: u32, held: Held) -> Result<(), NoMemory>
        requires { IsHeld held.six held.high held.low held.len }
        ensures ok { OnOk result (self.new ≡ self.old ++ nlri_from held (Some path) ∷ []) }
        ensures err { OnErr result (self.new ≡ self.old) }
    {
        let path = u64::from(path);
        if !held.six {
            self.append(Form::identified(Width::Four(held.len)), &[path, held.low])
        } else if held.low == 0 {
            self.append(Form::identified(Width::High(held.len)), &[path, held.high])
        } else {
            self.append(
                Form::identified(Width::Both(held.len)),
                &[path, held.high, held.low],
            )
        }
    }

    // Appends a form with its words.
    #[tactic(auto, using(crate::proofs::PackedLemmas::unpacked_append, crate::proofs::PackedLemmas::ArePacked_append))]
    fn append(&mut self, form: Form, words: &[u64]) -> Result<(), NoMemory>
        requires spelled { IsNlriAt form words.now }
        requires whole { length words.now ≡ words_of form }
        ensures ok { OnOk result (self.new ≡ self.old ++ nlri_at form words.now ∷ []) }
        ensures err { OnErr result (self.new ≡ self.old) }
    {
        self.forms.reserve(1)?;
        self.words.extend_from_slice(words)?;
        self.forms.push_reserved(form);
        Ok(())
    }
}

impl Clone for NlriList {
    ghost is_clone = { λ a b. b ≡ a };

    fn clone(&self) -> Result<NlriList, AllocError> {
        Ok(NlriList {
            forms: self.forms.clone()?,
            words: self.words.clone()?,
        })
    }
}
