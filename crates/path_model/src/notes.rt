//! What announcements say of Only-to-Customer, in order.
ghost use Rattle.std.specs.Prelude.{◌≡◌, ◌+◌, [], ◌∷◌, ◌++◌, replicate, slice_get, IfOk, OnOk, OnErr};
ghost use Rattle.std.specs.List.{list_all};
ghost use Rattle.path_model.specs.Notes.{is_absent};

use crate::Otc;
use av_base::NoMemory;
use std::alloc::Global;
use std::marker::Model;

/// One note for each of some announcements, in their order: its attribute Only-to-Customer (RFC 9234, section 5). It takes 32 bytes, and 8
/// more for each note from the first that has the attribute on.
#[derive(Debug, Drop)]
pub struct Notes {
    // how many in front have no attribute
    absent: usize,
    rest: Vec<Otc>,
}

impl Model for Notes {
    ghost use Rattle.std.specs.Prelude.{◌++◌, List, replicate};
    ghost use Rattle.path_model.specs.declared.otc.Otc.{Otc as AnyOtc};
    ghost use Rattle.path_model.specs.declared.otc.Otc.TheVariants.{Absent};

    ghost Value = { List AnyOtc };

    ghost view = { λ n. replicate n.absent Absent ++ n.rest.items };
}

impl Notes {
    /// No notes. It takes no memory.
    pub fn new(alloc: Global) -> Notes
        ensures { result ≡ [] }
    {
        Notes {
            absent: 0,
            rest: Vec::new(alloc),
        }
    }

    /// Appends the note of one more announcement.
    #[inline(always)]
    pub fn note(&mut self, otc: Otc) -> Result<(), NoMemory>
        ensures ok { OnOk result (self.new ≡ self.old ++ otc ∷ []) }
        ensures err { OnErr result (self.new ≡ self.old) }
    {
        self.note_all(otc, 1)
    }

    /// Appends the notes of so many announcements that share their attributes.
    #[tactic(auto, using(crate::proofs::NotesLemmas::more_absent))]
    #[inline(always)]
    pub fn note_all(&mut self, otc: Otc, count: usize) -> Result<(), NoMemory>
        ensures ok { OnOk result (self.new ≡ self.old ++ replicate count otc) }
        ensures err { OnErr result (self.new ≡ self.old) }
    {
        match otc {
            Otc::Absent if self.rest.as_slice().is_empty() => {
                self.absent = sum(self.absent, count)?;
            }
            _ => {
                let len = sum(self.rest.len(), count)?;
                self.rest.resize(len, otc)?;
            }
        }
        Ok(())
    }

    /// The note of the announcement with this index, from 0 on; `None` where there are fewer.
    pub fn get(&self, index: usize) -> Option<Otc>
        ensures { result ≡ slice_get self.now index }
    {
        if index < self.absent {
            Some(Otc::Absent)
        } else {
            self.rest.get(index - self.absent).copied()
        }
    }

    /// Whether none of the announcements has the attribute.
    #[tactic(auto, using(crate::proofs::NotesLemmas::absent_before))]
    pub fn are_absent(&self) -> bool
        ensures { result ≡ list_all is_absent self.now }
    {
        all_absent(self.rest.as_slice())
    }
}

fn sum(a: usize, b: usize) -> Result<usize, NoMemory>
    ensures { IfOk result (λ n. n ≡ a + b) }
{
    a.checked_add(b).ok_or(NoMemory)
}

fn all_absent(rest: &[Otc]) -> bool
    ensures { result ≡ list_all is_absent rest.now }
{
    rest.iter().all(|otc| matches!(otc, Otc::Absent))
}
