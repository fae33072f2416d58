//! What events are made of, drawn.
use av_base::NoMemory;
use path_model::{Addr, AsList, Changes, Key, Nlri, NlriList, Peer, Prefix, Role, Trail};
use std::alloc::Global;

/// An attestation of the one source, with its end.
#[derive(Drop)]
pub struct Drawn {
    pub customer: u32,
    pub providers: AsList,
    pub until: Option<u32>,
}

/// Numbers that look drawn: two upper bits of a linear congruence.
#[derive(Drop)]
pub struct Draw {
    pub state: u64,
}

impl Draw {
    // One of 0, 1, 2 and 3.
    pub fn four(&mut self) -> u32 {
        self.state = self
            .state
            .wrapping_mul(6364136223846793005)
            .wrapping_add(1442695040888963407);
        (self.state >> 60) as u32 & 3
    }

    // An AS from 1 to 10.
    pub fn asn(&mut self) -> u32 {
        let sum = self.four().wrapping_add(self.four());
        sum.wrapping_add(self.four()).wrapping_add(1)
    }

    pub fn role(&mut self) -> Role {
        let kind = self.four();
        let part = self.four();
        match kind {
            0 => rare_role(part),
            1 if part == 0 => Role::Mutual,
            1 | 2 => Role::Provider,
            _ => Role::Customer,
        }
    }

    // One of four addresses, in one of ten ASes.
    fn peer(&mut self) -> Peer {
        let bits = self.four();
        let addr = if bits == 0 {
            Addr::V6(1)
        } else {
            Addr::V4(bits)
        };
        Peer {
            addr,
            asn: self.asn(),
        }
    }

    // One of four prefixes, half of the time with a path identifier.
    fn nlri(&mut self) -> Option<Nlri> {
        let bits = self.four();
        let addr = if bits == 0 {
            Addr::V6(0)
        } else {
            Addr::V4(bits << 24)
        };
        let prefix = Prefix::new(addr, 8)?;
        let path = self.path();
        Some(Nlri { prefix, path })
    }

    // No path identifier, 0, or one of 1, 2, 3 and 4.
    fn path(&mut self) -> Option<u32> {
        match self.four() {
            0 | 1 => None,
            2 => Some(0),
            _ => Some(self.four().wrapping_add(1)),
        }
    }

    // A key to one of these.
    fn key(&mut self) -> Option<Key> {
        let nlri = self.nlri()?;
        let peer = self.peer();
        Some(Key::new(peer, nlri))
    }

    // A list of one to four ASes, of which the first is this one most of the time.
    pub fn ases(&mut self, alloc: Global, first: u32) -> Result<AsList, NoMemory> {
        let mut ases = AsList::new(alloc);
        let first = if self.four() == 0 { self.asn() } else { first };
        ases.push(first)?;
        for _ in 0..self.four() {
            ases.push(self.asn())?;
        }
        Ok(ases)
    }

    // A few changes of the routes.
    pub fn changes(&mut self, alloc: Global) -> Result<Changes, NoMemory> {
        let mut changes = Changes::new(alloc);
        for _ in 0..4 {
            self.add_change(alloc, &mut changes)?;
        }
        Ok(changes)
    }

    fn add_change(&mut self, alloc: Global, changes: &mut Changes) -> Result<(), NoMemory> {
        let Some(key) = self.key() else {
            return Ok(());
        };
        let kind = self.four();
        let part = self.four();
        match (kind, part) {
            (0, 0) => changes.remove_peer(key.peer),
            (0, 1) => changes.remove_all(key.peer, self.nlris(alloc, key.nlri())?),
            (0 | 1, _) => changes.remove(key),
            (_, _) => self.add_announcement(alloc, changes, key, part),
        }
    }

    // A few prefixes, of which the first is this one; some may stand there twice.
    fn nlris(&mut self, alloc: Global, first: Nlri) -> Result<NlriList, NoMemory> {
        let mut nlris = NlriList::new(alloc);
        nlris.push(first)?;
        for _ in 0..3 {
            if let Some(nlri) = self.nlri() {
                nlris.push(nlri)?;
            }
        }
        Ok(nlris)
    }

    fn add_announcement(
        &mut self,
        alloc: Global,
        changes: &mut Changes,
        key: Key,
        part: u32,
    ) -> Result<(), NoMemory> {
        let path = self.ases(alloc, key.peer.asn)?;
        if path.len() > 65_535 {
            return Ok(());
        }
        let trail = Trail::new(alloc, part == 0, path.as_slice())?;
        if part == 1 {
            let nlris = self.nlris(alloc, key.nlri())?;
            return changes.announce_all(key.peer, trail, nlris);
        }
        changes.announce(key, trail)
    }

    // A moment from 0 to 6.
    pub fn moment(&mut self) -> u32 {
        self.four().wrapping_add(self.four())
    }

    // What the one source attests; some customers may have several, with ends of their own.
    pub fn attestations(&mut self, alloc: Global) -> Result<Vec<Drawn>, NoMemory> {
        let mut drawn = Vec::new(alloc);
        for _ in 0..5 {
            drawn.push(Drawn {
                customer: self.asn(),
                providers: self.ases(alloc, 2)?,
                until: self.end(),
            })?;
        }
        Ok(drawn)
    }

    // Never, or one of these moments.
    fn end(&mut self) -> Option<u32> {
        match self.four() {
            0 | 1 => None,
            _ => Some(self.moment()),
        }
    }
}

fn rare_role(part: u32) -> Role {
    match part {
        0 | 1 => Role::Peer,
        2 => Role::Rs,
        _ => Role::RsClient,
    }
}
