//! Where to look for a peer first.

use path_model::{Addr, Peer};
use std::alloc::Global;

// How many hints there are: of some hundreds of peers most have one each.
const HINTS: usize = 1024;

// Odd, and near 2^64 divided by the golden ratio.
const FACTOR: u64 = 11400714819323198485;

// For each peer a slot that may be its own. Whoever asks tests it, and a wrong one costs time alone: so no contract speaks of hints.
#[derive(Drop)]
pub(crate) struct Hints {
    // each at the place of its peer; none until there is a peer, and then 2 KB, or still none where there is no memory
    slots: Vec<u16>,
}

impl Hints {
    // None at all. They take no memory.
    pub(crate) fn new(alloc: Global) -> Hints {
        Hints {
            slots: Vec::new(alloc),
        }
    }

    // The slot to look at first.
    #[inline(always)]
    pub(crate) fn slot(&self, peer: &Peer) -> usize {
        match self.slots.get(place(peer)) {
            None => 0,
            Some(slot) => usize::from(*slot),
        }
    }

    // Room for all of them, if there is memory.
    pub(crate) fn make_room(&mut self, alloc: Global) {
        if self.slots.is_empty() {
            if let Ok(slots) = Vec::from_elem(alloc, 0, HINTS) {
                self.slots = slots;
            }
        }
    }

    // This is the peer's slot from now on. A peer in a slot that takes more than two bytes has no hint. It takes no memory.
    pub(crate) fn set(&mut self, peer: &Peer, slot: usize) {
        if let Ok(slot) = u16::try_from(slot) {
            if let Some(hint) = self.slots.get_mut(place(peer)) {
                *hint = slot;
            }
        }
    }
}

// The place of a peer's hint. That of two peers may be the same.
#[inline(always)]
fn place(peer: &Peer) -> usize {
    let address = match peer.addr {
        Addr::V4(bits) => u64::from(bits),
        Addr::V6(bits) => (bits % (1 << 64)) as u64 ^ (bits >> 64) as u64,
    };
    let word = address ^ (u64::from(peer.asn) << 32);
    (word.wrapping_mul(FACTOR) >> 54) as usize
}
