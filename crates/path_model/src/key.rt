//! What a route is known by.
ghost use Rattle.std.specs.Prelude.{◌≡◌, Some, refl};
ghost use Rattle.std.specs.Ordering.{eq_by_cmp};
ghost use Rattle.std.specs.Cmp.{eq_by_cmp_equiv, partial_equiv_from_equiv, partial_order_from_agreeing_total};
ghost use Rattle.path_model.specs.Key.{key_cmp, key_of, nlri_of};
ghost use Rattle.path_model.specs.Order.{key_total};

use crate::{Nlri, Peer, Prefix};
use std::cmp::Ordering;

/// The key of a route: one peer announces at most one path for one prefix (RFC 4271, section 3.1), or for one prefix and path identifier
/// (RFC 7911, section 3). It takes 80 bytes. The order is by peer, then by prefix, and then by path identifier, none first.
#[derive(Clone, Copy, Debug)]
pub struct Key {
    /// Who announced the route.
    pub peer: Peer,
    /// What the route leads to.
    pub prefix: Prefix,
    /// The path identifier, if the peer announces several paths for a prefix. No identifier isn't the identifier 0.
    pub path: Option<u32>,
}

impl Key {
    /// The key of a peer's route.
    pub fn new(peer: Peer, nlri: Nlri) -> Key
        ensures { result ≡ key_of peer nlri }
    {
        Key {
            peer,
            prefix: nlri.prefix,
            path: nlri.path,
        }
    }

    /// What the peer announced: the prefix, with the path identifier.
    pub fn nlri(&self) -> Nlri
        ensures { result ≡ nlri_of self.now }
    {
        Nlri {
            prefix: self.prefix,
            path: self.path,
        }
    }
}

impl PartialEq for Key {
    ghost eq = { eq_by_cmp key_cmp };

    ghost laws = { partial_equiv_from_equiv (eq_by_cmp_equiv key_total) };

    fn eq(&self, other: &Key) -> bool {
        self.cmp(other).is_eq()
    }
}

impl Eq for Key {
    ghost laws = { eq_by_cmp_equiv key_total };
}

impl PartialOrd for Key {
    ghost partial_cmp = { λ a b. Some (key_cmp a b) };

    ghost laws = { partial_order_from_agreeing_total key_cmp key_total (λ x y. refl) (λ x y. refl) };

    fn partial_cmp(&self, other: &Key) -> Option<Ordering> {
        Some(self.cmp(other))
    }
}

impl Ord for Key {
    ghost cmp = { key_cmp };

    ghost total = { key_total };

    ghost matches_partial_cmp = { λ a b. refl };

    ghost matches_eq = { λ a b. refl };

    fn cmp(&self, other: &Key) -> Ordering {
        self.peer.cmp(&other.peer).then(
            self.prefix
                .cmp(&other.prefix)
                .then(self.path.cmp(&other.path)),
        )
    }
}
