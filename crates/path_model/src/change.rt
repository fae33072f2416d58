//! One change of the routes.

ghost use Rattle.std.specs.Prelude.{◌≡◌};

use crate::{Key, Peer, Trail};
use std::alloc::AllocError;

/// A change of the routes (RFC 4271, section 3.1): a route is withdrawn, or announced in place of the one that its key had.
/// It takes 144 bytes, beside the ASes of a path of more than seven.
#[derive(Debug, Drop)]
pub enum Change {
    /// The route of the key is withdrawn, if there is one.
    Remove(Key),
    /// The key's route has this path from now on.
    Announce(Key, Trail),
    /// All routes of the peer are gone, as its session is.
    RemovePeer(Peer),
}

impl Clone for Change {
    ghost is_clone = { λ a b. b ≡ a };

    fn clone(&self) -> Result<Change, AllocError> {
        match self {
            Change::Remove(key) => Ok(Change::Remove(*key)),
            Change::Announce(key, trail) => Ok(Change::Announce(*key, trail.clone()?)),
            Change::RemovePeer(peer) => Ok(Change::RemovePeer(*peer)),
        }
    }
}
