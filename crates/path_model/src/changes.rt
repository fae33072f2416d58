//! The changes that one message or record makes, in order.
ghost use Rattle.std.specs.Prelude.{◌≡◌, length, ◌∷◌, ◌++◌, [], IfOk, OnOk, OnErr, IsTrue, ◌↔◌};
ghost use Rattle.path_model.specs.declared.change.Change.TheVariants.{Remove, Announce, RemovePeer};
ghost use Rattle.path_model.specs.Batches.{all_changes, announcements, changes_in, removals};

use crate::{Batch, Change, Key, NlriList, Peer, Trail};
use av_base::NoMemory;
use std::alloc::Global;
use std::marker::Model;

/// A list of changes, performed from the first to the last. It takes 32 bytes, and what its batches take.
#[derive(Debug, Drop)]
pub struct Changes {
    batches: Vec<Batch>,
    // how many changes they have together
    len: usize,
}

impl Model for Changes {
    ghost use Rattle.std.specs.Prelude.{◌≡◌, List, length};
    ghost use Rattle.path_model.specs.declared.change.Change.{Change as AnyChange};
    ghost use Rattle.path_model.specs.Batches.{all_changes};

    ghost Value = { List AnyChange };

    ghost view = { λ c. all_changes c.batches.items };

    ghost invariant = { λ c. c.len ≡ length (all_changes c.batches.items) };
}

impl Changes {
    /// No changes. It takes no memory.
    pub fn new(alloc: Global) -> Changes
        ensures { result ≡ [] }
    {
        Changes {
            batches: Vec::new(alloc),
            len: 0,
        }
    }

    /// No changes, with room for so many batches.
    pub fn with_room(alloc: Global, batches: usize) -> Result<Changes, NoMemory>
        ensures { IfOk result (λ changes. changes ≡ []) }
    {
        Ok(Changes {
            batches: Vec::with_capacity(alloc, batches)?,
            len: 0,
        })
    }

    /// Appends a withdrawal.
    pub fn remove(&mut self, key: Key) -> Result<(), NoMemory>
        ensures ok { OnOk result (self.new ≡ self.old ++ Remove key ∷ []) }
        ensures err { OnErr result (self.new ≡ self.old) }
    {
        self.push(Batch::One(Change::Remove(key)), 1)
    }

    /// Appends an announcement.
    #[inline(always)]
    pub fn announce(&mut self, key: Key, trail: Trail) -> Result<(), NoMemory>
        ensures ok { OnOk result (self.new ≡ self.old ++ Announce key trail ∷ []) }
        ensures err { OnErr result (self.new ≡ self.old) }
    {
        self.push(Batch::One(Change::Announce(key, trail)), 1)
    }

    /// Appends the end of a peer's session.
    pub fn remove_peer(&mut self, peer: Peer) -> Result<(), NoMemory>
        ensures ok { OnOk result (self.new ≡ self.old ++ RemovePeer peer ∷ []) }
        ensures err { OnErr result (self.new ≡ self.old) }
    {
        self.push(Batch::One(Change::RemovePeer(peer)), 1)
    }

    /// Appends withdrawals by one peer.
    pub fn remove_all(&mut self, peer: Peer, nlris: NlriList) -> Result<(), NoMemory>
        ensures ok { OnOk result (self.new ≡ self.old ++ removals peer nlris) }
        ensures err { OnErr result (self.new ≡ self.old) }
    {
        let count = nlris.len();
        self.push(Batch::RemoveAll(peer, nlris), count)
    }

    /// Appends announcements by one peer, all with one path. It takes the memory of the path once.
    pub fn announce_all(
        &mut self,
        peer: Peer,
        trail: Trail,
        nlris: NlriList,
    ) -> Result<(), NoMemory>
        ensures ok { OnOk result (self.new ≡ self.old ++ announcements peer trail nlris) }
        ensures err { OnErr result (self.new ≡ self.old) }
    {
        let count = nlris.len();
        self.push(Batch::AnnounceAll(peer, trail, nlris), count)
    }

    /// The number of changes.
    pub fn len(&self) -> usize
        ensures { result ≡ length self.now }
    {
        self.len
    }

    /// Whether there are none.
    pub fn is_empty(&self) -> bool
        ensures { IsTrue result ↔ (self.now ≡ []) }
    {
        self.len == 0
    }

    /// All changes in order, in batches.
    pub fn batches(&self) -> &[Batch]
        ensures { all_changes result.now ≡ self.now }
    {
        self.batches.as_slice()
    }

    /// The same changes once more.
    pub fn copy(&self) -> Result<Changes, NoMemory>
        ensures { IfOk result (λ changes. changes ≡ self.now) }
    {
        Ok(Changes {
            batches: self.batches.clone()?,
            len: self.len,
        })
    }

    // Appends a batch of so many changes.
    #[tactic(auto, using(crate::proofs::BatchLemmas::all_changes_append, crate::proofs::BatchLemmas::length_all_changes))]
    #[inline(always)]
    fn push(&mut self, batch: Batch, count: usize) -> Result<(), NoMemory>
        requires { count ≡ length (changes_in batch) }
        ensures ok { OnOk result (self.new ≡ self.old ++ changes_in batch) }
        ensures err { OnErr result (self.new ≡ self.old) }
    {
        let len = self.len.checked_add(count).ok_or(NoMemory)?;
        self.batches.push(batch)?;
        self.len = len;
        Ok(())
    }
}
