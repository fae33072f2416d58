//! What a peer announces a path for.
ghost use Rattle.std.specs.Prelude.{Some, refl};
ghost use Rattle.std.specs.Ordering.{eq_by_cmp};
ghost use Rattle.std.specs.Cmp.{eq_by_cmp_equiv, partial_equiv_from_equiv, partial_order_from_agreeing_total};
ghost use Rattle.path_model.specs.Key.{nlri_cmp};
ghost use Rattle.path_model.specs.Order.{nlri_total};

use crate::Prefix;
use std::cmp::Ordering;

/// Network layer reachability information as an UPDATE has it (RFC 4271, section 4.3): a prefix, and where the peer announces several paths
/// for a prefix, the identifier of the path (RFC 7911, section 3). It takes 32 bytes. The order is by prefix and then by path identifier,
/// none first.
#[derive(Clone, Copy, Debug)]
pub struct Nlri {
    /// What the route leads to.
    pub prefix: Prefix,
    /// The path identifier, if there is one. No identifier isn't the identifier 0.
    pub path: Option<u32>,
}

impl PartialEq for Nlri {
    ghost eq = { eq_by_cmp nlri_cmp };

    ghost laws = { partial_equiv_from_equiv (eq_by_cmp_equiv nlri_total) };

    fn eq(&self, other: &Nlri) -> bool {
        self.cmp(other).is_eq()
    }
}

impl Eq for Nlri {
    ghost laws = { eq_by_cmp_equiv nlri_total };
}

impl PartialOrd for Nlri {
    ghost partial_cmp = { λ a b. Some (nlri_cmp a b) };

    ghost laws = { partial_order_from_agreeing_total nlri_cmp nlri_total (λ x y. refl) (λ x y. refl) };

    fn partial_cmp(&self, other: &Nlri) -> Option<Ordering> {
        Some(self.cmp(other))
    }
}

impl Ord for Nlri {
    ghost cmp = { nlri_cmp };

    ghost total = { nlri_total };

    ghost matches_partial_cmp = { λ a b. refl };

    ghost matches_eq = { λ a b. refl };

    fn cmp(&self, other: &Nlri) -> Ordering {
        self.prefix
            .cmp(&other.prefix)
            .then(self.path.cmp(&other.path))
    }
}
