//! Prefixes of IPv6 without a path identifier.
ghost use Rattle.std.specs.Prelude.{◌≡◌, Some, refl};
ghost use Rattle.std.specs.Ordering.{eq_by_cmp};
ghost use Rattle.std.specs.Cmp.{eq_by_cmp_equiv, partial_equiv_from_equiv, partial_order_from_agreeing_total};
ghost use Rattle.path_model.specs.Key.{nlri_cmp};
ghost use Rattle.path_model.specs.Order.{nlri_total};
ghost use Rattle.route_map.specs.Merged.{plain};
ghost use Rattle.route_map.specs.Numbered.{least_nlri};

use crate::ipv4_subnet::Ipv4Subnet;
use path_model::{Nlri, Prefix};
use std::cmp::Ordering;
use std::marker::Model;

// A prefix that was announced without a path identifier: one of IPv6 where it is held. It takes 24 bytes, where an `Nlri` takes 32.
#[derive(Clone, Copy, Debug)]
pub(crate) struct Ipv6Plain {
    prefix: Prefix,
}

impl Model for Ipv6Plain {
    ghost use Rattle.path_model.specs.declared.nlri.Nlri.{Nlri};
    ghost use Rattle.route_map.specs.Merged.{plain};

    ghost Value = { Nlri };

    ghost view = { λ s. plain s.prefix };

    ghost inverse = { λ n. record { prefix = n.prefix } };
}

impl Ipv6Plain {
    // The least of all, of either family.
    pub(crate) fn least() -> Ipv6Plain
        ensures { result ≡ least_nlri }
    {
        Ipv6Plain {
            prefix: Ipv4Subnet::least().prefix(),
        }
    }

    // The prefix.
    pub(crate) fn of(prefix: &Prefix) -> Ipv6Plain
        ensures { result ≡ plain prefix.now }
    {
        Ipv6Plain { prefix: *prefix }
    }

    // The same as any announced prefix.
    pub(crate) fn nlri(&self) -> Nlri
        ensures { result ≡ self.now }
    {
        Nlri {
            prefix: self.prefix,
            path: None,
        }
    }
}

impl PartialEq for Ipv6Plain {
    ghost eq = { eq_by_cmp nlri_cmp };

    ghost laws = { partial_equiv_from_equiv (eq_by_cmp_equiv nlri_total) };

    fn eq(&self, other: &Ipv6Plain) -> bool {
        self.cmp(other).is_eq()
    }
}

impl Eq for Ipv6Plain {
    ghost laws = { eq_by_cmp_equiv nlri_total };
}

impl PartialOrd for Ipv6Plain {
    ghost partial_cmp = { λ a b. Some (nlri_cmp a b) };

    ghost laws = { partial_order_from_agreeing_total nlri_cmp nlri_total (λ x y. refl) (λ x y. refl) };

    fn partial_cmp(&self, other: &Ipv6Plain) -> Option<Ordering> {
        Some(self.cmp(other))
    }
}

impl Ord for Ipv6Plain {
    ghost cmp = { nlri_cmp };

    ghost total = { nlri_total };

    ghost matches_partial_cmp = { λ a b. refl };

    ghost matches_eq = { λ a b. refl };

    fn cmp(&self, other: &Ipv6Plain) -> Ordering {
        self.prefix.cmp(&other.prefix).then(Ordering::Equal)
    }
}
