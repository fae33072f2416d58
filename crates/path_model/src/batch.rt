//! Changes that one message makes together.
ghost use Rattle.std.specs.Prelude.{◌≡◌};

use crate::{Change, NlriList, Peer, Trail};
use std::alloc::AllocError;

/// Changes that are made together, and what they share only once: so an announcement of many prefixes has one path (RFC 4271, section 4.3).
/// It takes 160 bytes, beside the ASes of a path of more than seven, and its prefixes.
#[derive(Debug, Drop)]
pub enum Batch {
    /// This change alone.
    One(Change),
    /// The peer's routes to these prefixes are withdrawn, from the first to the last.
    RemoveAll(Peer, NlriList),
    /// The peer's routes to these prefixes, from the first to the last, have this path from now on.
    AnnounceAll(Peer, Trail, NlriList),
}

impl Clone for Batch {
    ghost is_clone = { λ a b. b ≡ a };

    fn clone(&self) -> Result<Batch, AllocError> {
        match self {
            Batch::One(change) => Ok(Batch::One(change.clone()?)),
            Batch::RemoveAll(peer, nlris) => Ok(Batch::RemoveAll(*peer, nlris.clone()?)),
            Batch::AnnounceAll(peer, trail, nlris) => Ok(Batch::AnnounceAll(
                *peer,
                trail.clone()?,
                nlris.clone()?,
            )),
        }
    }
}
