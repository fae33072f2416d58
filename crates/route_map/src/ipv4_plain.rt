//! Prefixes of IPv4 without a path identifier.
ghost use Rattle.std.specs.Prelude.{◌≡◌, Some, option_map, refl};
ghost use Rattle.std.specs.Ordering.{eq_by_cmp};
ghost use Rattle.std.specs.Cmp.{eq_by_cmp_equiv, partial_equiv_from_equiv, partial_order_from_agreeing_total};
ghost use Rattle.path_model.specs.Key.{nlri_cmp};
ghost use Rattle.path_model.specs.Order.{nlri_total};
ghost use Rattle.route_map.specs.Families.{four_of};
ghost use Rattle.route_map.specs.Merged.{plain};
ghost use Rattle.route_map.specs.Numbered.{least_nlri};

use crate::ipv4_subnet::Ipv4Subnet;
use path_model::{Nlri, Prefix};
use std::cmp::Ordering;
use std::marker::Model;

// A prefix of IPv4 that was announced without a path identifier. It takes 5 bytes, where an `Nlri` takes 32.
#[derive(Clone, Copy, Debug)]
pub(crate) struct Ipv4Plain {
    subnet: Ipv4Subnet,
}

impl Model for Ipv4Plain {
    ghost use Rattle.path_model.specs.declared.nlri.Nlri.{Nlri};
    ghost use Rattle.route_map.specs.Merged.{plain};

    ghost Value = { Nlri };

    ghost view = { λ s. plain s.subnet };

    ghost inverse = { λ n. record { subnet = n.prefix } };
}

impl Ipv4Plain {
    // The least of all.
    pub(crate) fn least() -> Ipv4Plain
        ensures { result ≡ least_nlri }
    {
        Ipv4Plain {
            subnet: Ipv4Subnet::least(),
        }
    }

    // The prefix, if it is one of IPv4.
    pub(crate) fn of(prefix: &Prefix) -> Option<Ipv4Plain>
        ensures { result ≡ option_map plain (four_of prefix.now) }
    {
        match Ipv4Subnet::of(prefix) {
            None => None,
            Some(subnet) => Some(Ipv4Plain { subnet }),
        }
    }

    // The same as any announced prefix.
    pub(crate) fn nlri(&self) -> Nlri
        ensures { result ≡ self.now }
    {
        Nlri {
            prefix: self.subnet.prefix(),
            path: None,
        }
    }
}

impl PartialEq for Ipv4Plain {
    ghost eq = { eq_by_cmp nlri_cmp };

    ghost laws = { partial_equiv_from_equiv (eq_by_cmp_equiv nlri_total) };

    fn eq(&self, other: &Ipv4Plain) -> bool {
        self.cmp(other).is_eq()
    }
}

impl Eq for Ipv4Plain {
    ghost laws = { eq_by_cmp_equiv nlri_total };
}

impl PartialOrd for Ipv4Plain {
    ghost partial_cmp = { λ a b. Some (nlri_cmp a b) };

    ghost laws = { partial_order_from_agreeing_total nlri_cmp nlri_total (λ x y. refl) (λ x y. refl) };

    fn partial_cmp(&self, other: &Ipv4Plain) -> Option<Ordering> {
        Some(self.cmp(other))
    }
}

impl Ord for Ipv4Plain {
    ghost cmp = { nlri_cmp };

    ghost total = { nlri_total };

    ghost matches_partial_cmp = { λ a b. refl };

    ghost matches_eq = { λ a b. refl };

    fn cmp(&self, other: &Ipv4Plain) -> Ordering {
        self.subnet.cmp(&other.subnet).then(Ordering::Equal)
    }
}
