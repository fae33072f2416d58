//! Peers of a collector.
ghost use Rattle.std.specs.Prelude.{Some, refl};
ghost use Rattle.std.specs.Ordering.{eq_by_cmp};
ghost use Rattle.std.specs.Cmp.{eq_by_cmp_equiv, partial_equiv_from_equiv, partial_order_from_agreeing_total};
ghost use Rattle.path_model.specs.Key.{peer_cmp};
ghost use Rattle.path_model.specs.Order.{peer_total};

use crate::Addr;
use std::cmp::Ordering;

/// A peer: a neighbour of the router or collector that recorded routes, by its address and its AS (RFC 6396, section 4.3.1).
/// It takes 48 bytes. The order is by address and then by AS.
#[derive(Clone, Copy, Debug)]
pub struct Peer {
    /// The peer's address.
    pub addr: Addr,
    /// The peer's AS.
    pub asn: u32,
}

impl PartialEq for Peer {
    ghost eq = { eq_by_cmp peer_cmp };

    ghost laws = { partial_equiv_from_equiv (eq_by_cmp_equiv peer_total) };

    fn eq(&self, other: &Peer) -> bool {
        self.cmp(other).is_eq()
    }
}

impl Eq for Peer {
    ghost laws = { eq_by_cmp_equiv peer_total };
}

impl PartialOrd for Peer {
    ghost partial_cmp = { λ a b. Some (peer_cmp a b) };

    ghost laws = { partial_order_from_agreeing_total peer_cmp peer_total (λ x y. refl) (λ x y. refl) };

    fn partial_cmp(&self, other: &Peer) -> Option<Ordering> {
        Some(self.cmp(other))
    }
}

impl Ord for Peer {
    ghost cmp = { peer_cmp };

    ghost total = { peer_total };

    ghost matches_partial_cmp = { λ a b. refl };

    ghost matches_eq = { λ a b. refl };

    fn cmp(&self, other: &Peer) -> Ordering {
        self.addr.cmp(&other.addr).then(self.asn.cmp(&other.asn))
    }
}
