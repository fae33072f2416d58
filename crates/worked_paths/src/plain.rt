//! What stands, as plain lists, and all routes judged from scratch.
use crate::drawing::Drawn;
use attestations::Terms;
use av_base::{NoMemory, Steps};
use path_model::{Batch, Change, Key, Name, NlriList, Peer, Roles, Rows, Trail, Verdict};
use ramps::judge;
use std::alloc::Global;
use std::collections::{BTreeMap, BTreeSet};
use std::sync::ledger::Ledger;
use vap_table::{TableChange, Vaps};

/// What stands, as lists: the moment, what the source attests, the filters and the assertions, the roles, and the routes.
#[derive(Drop)]
pub struct Plain {
    pub alloc: Global,
    pub moment: u32,
    pub source: Vec<Drawn>,
    pub filtered: BTreeSet<u32>,
    pub asserted: Rows,
    pub roles: Roles,
    routes: BTreeMap<Key, Trail>,
    // the verdicts at the last mark
    pub marked: BTreeMap<Key, Verdict>,
}

impl Plain {
    pub fn new(alloc: Global) -> Plain {
        Plain {
            alloc,
            moment: 0,
            source: Vec::new(alloc),
            filtered: BTreeSet::new(alloc),
            asserted: Rows::new(alloc),
            roles: Roles::new(alloc),
            routes: BTreeMap::new(alloc),
            marked: BTreeMap::new(alloc),
        }
    }

    // Performs the changes of one batch.
    pub fn perform(&mut self, batch: &Batch) -> Result<(), NoMemory> {
        match batch {
            Batch::One(change) => self.change(change),
            Batch::RemoveAll(peer, nlris) => {
                self.remove_all(*peer, nlris);
                Ok(())
            }
            Batch::AnnounceAll(peer, trail, nlris) => self.announce_all(*peer, trail, nlris),
        }
    }

    fn remove_all(&mut self, peer: Peer, nlris: &NlriList) {
        for nlri in nlris.iter() {
            self.routes.remove(&Key::new(peer, nlri));
        }
    }

    fn announce_all(
        &mut self,
        peer: Peer,
        trail: &Trail,
        nlris: &NlriList,
    ) -> Result<(), NoMemory> {
        for nlri in nlris.iter() {
            self.routes.insert(Key::new(peer, nlri), trail.copy()?)?;
        }
        Ok(())
    }

    // Performs one change of the routes.
    fn change(&mut self, change: &Change) -> Result<(), NoMemory> {
        match change {
            Change::Remove(key) => {
                self.routes.remove(key);
            }
            Change::Announce(key, trail) => {
                self.routes.insert(*key, trail.copy()?)?;
            }
            Change::RemovePeer(peer) => self.routes = self.routes_but(peer)?,
        }
        Ok(())
    }

    // The routes of all peers but one.
    fn routes_but(&self, peer: &Peer) -> Result<BTreeMap<Key, Trail>, NoMemory> {
        let mut left = BTreeMap::new(self.alloc);
        for (key, trail) in &self.routes {
            if key.peer != *peer {
                left.insert(*key, trail.copy()?)?;
            }
        }
        Ok(left)
    }

    // All that attests, as the rows of one source that never end: those that are unfiltered and haven't ended, and the asserted ones.
    fn table(&self) -> Result<Vaps, NoMemory> {
        let mut rows = self.unfiltered()?;
        for (customer, providers) in self.asserted.entries() {
            rows.unite(customer, providers.as_slice())?;
        }
        let Some(name) = Name::new(self.alloc, b"all")? else {
            return Err(NoMemory);
        };
        let (table, _moves) = Vaps::new(self.alloc).change(TableChange::Replace(
            name,
            Terms::of(self.alloc, rows)?,
        ))?;
        Ok(table)
    }

    fn unfiltered(&self) -> Result<Rows, NoMemory> {
        let mut rows = Rows::new(self.alloc);
        for one in &self.source {
            if !self.filtered.contains(&one.customer) && !self.has_ended(one) {
                rows.unite(one.customer, one.providers.as_slice())?;
            }
        }
        Ok(rows)
    }

    fn has_ended(&self, one: &Drawn) -> bool {
        match one.until {
            None => false,
            Some(end) => end <= self.moment,
        }
    }

    // The verdict of each route, judged from scratch.
    pub fn verdicts<L: Ledger>(
        &self,
        steps: &mut Steps<L>,
    ) -> Result<BTreeMap<Key, Verdict>, NoMemory> {
        let table = self.table()?;
        let mut verdicts = BTreeMap::new(self.alloc);
        for (key, trail) in &self.routes {
            let asn = key.peer.asn;
            let judged = judge(&table, self.roles.of(asn), asn, trail, steps);
            verdicts.insert(*key, judged.verdict())?;
        }
        Ok(verdicts)
    }

    // What differs between the marked verdicts and these.
    pub fn changes(&self, now: &BTreeMap<Key, Verdict>) -> Result<BTreeMap<Key, Sides>, NoMemory> {
        let mut changes = BTreeMap::new(self.alloc);
        self.add_changed(&mut changes, now)?;
        self.add_new(&mut changes, now)?;
        Ok(changes)
    }

    fn add_changed(
        &self,
        changes: &mut BTreeMap<Key, Sides>,
        now: &BTreeMap<Key, Verdict>,
    ) -> Result<(), NoMemory> {
        for (key, verdict) in &self.marked {
            let before = Some(*verdict);
            let after = now.get(key).copied();
            if before != after {
                changes.insert(*key, Sides { before, after })?;
            }
        }
        Ok(())
    }

    fn add_new(
        &self,
        changes: &mut BTreeMap<Key, Sides>,
        now: &BTreeMap<Key, Verdict>,
    ) -> Result<(), NoMemory> {
        let before = None;
        for (key, verdict) in now {
            if self.marked.get(key).is_none() {
                let after = Some(*verdict);
                changes.insert(*key, Sides { before, after })?;
            }
        }
        Ok(())
    }
}

/// A verdict as it was marked and as it is, or none.
#[derive(Clone, Copy)]
pub struct Sides {
    pub before: Option<Verdict>,
    pub after: Option<Verdict>,
}
