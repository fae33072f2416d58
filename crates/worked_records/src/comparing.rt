//! The changes of a record or a message beside those that are wanted.
use path_model::{Addr, Batch, Change, Key, NlriList, Noted, Peer, Trail};
use std::slice::Iter;

// A change that is wanted: a prefix is its address and its length, with a path identifier or without, and a path its ASes from the
// origin on.
#[derive(Clone, Copy)]
pub(crate) enum Wanted {
    Remove(Peer, Addr, u8, Option<u32>),
    Announce(Peer, Addr, u8, Option<u32>, &'static [u32]),
    RemovePeer(Peer),
}

/// Whether these changes are the next ones that are wanted, and no announcement has an Only-to-Customer.
pub(crate) fn are_next(noted: &Noted, wants: &mut Iter<'_, Wanted>) -> bool {
    for batch in noted.changes.batches() {
        if !is_batch(batch, wants) {
            return false;
        }
    }
    noted.notes.are_absent()
}

fn is_batch(batch: &Batch, wants: &mut Iter<'_, Wanted>) -> bool {
    match batch {
        Batch::One(change) => is_change(change, wants.next()),
        Batch::RemoveAll(peer, nlris) => are_removed(*peer, nlris, wants),
        Batch::AnnounceAll(peer, trail, nlris) => are_announced(*peer, trail, nlris, wants),
    }
}

fn are_removed(peer: Peer, nlris: &NlriList, wants: &mut Iter<'_, Wanted>) -> bool {
    for nlri in nlris.iter() {
        if !is_removal(&Key::new(peer, nlri), wants.next()) {
            return false;
        }
    }
    true
}

fn are_announced(
    peer: Peer,
    trail: &Trail,
    nlris: &NlriList,
    wants: &mut Iter<'_, Wanted>,
) -> bool {
    for nlri in nlris.iter() {
        if !is_announcement(&Key::new(peer, nlri), trail, wants.next()) {
            return false;
        }
    }
    true
}

fn is_change(change: &Change, want: Option<&Wanted>) -> bool {
    match change {
        Change::Remove(key) => is_removal(key, want),
        Change::Announce(key, trail) => is_announcement(key, trail, want),
        Change::RemovePeer(one) => match want {
            Some(Wanted::RemovePeer(peer)) => *one == *peer,
            _ => false,
        },
    }
}

fn is_removal(key: &Key, want: Option<&Wanted>) -> bool {
    match want {
        Some(Wanted::Remove(peer, addr, len, path)) => is_key(key, *peer, *addr, *len, *path),
        _ => false,
    }
}

fn is_announcement(key: &Key, trail: &Trail, want: Option<&Wanted>) -> bool {
    match want {
        Some(Wanted::Announce(peer, addr, len, path, chain)) => {
            is_key(key, *peer, *addr, *len, *path) && is_chain(trail, chain)
        }
        _ => false,
    }
}

fn is_key(key: &Key, peer: Peer, addr: Addr, len: u8, path: Option<u32>) -> bool {
    key.peer == peer && key.prefix.addr() == addr && key.prefix.len() == len && key.path == path
}

fn is_chain(trail: &Trail, chain: &[u32]) -> bool {
    !trail.is_set() && trail.chain().as_slice() == chain
}
