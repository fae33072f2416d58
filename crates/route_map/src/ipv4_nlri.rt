//! Prefixes of IPv4 with a path identifier.
ghost use Rattle.std.specs.Prelude.{◌≡◌, Some, option_map, refl};
ghost use Rattle.std.specs.Ordering.{eq_by_cmp};
ghost use Rattle.std.specs.Cmp.{eq_by_cmp_equiv, partial_equiv_from_equiv, partial_order_from_agreeing_total};
ghost use Rattle.path_model.specs.Key.{nlri_cmp};
ghost use Rattle.path_model.specs.Order.{nlri_total};
ghost use Rattle.route_map.specs.Families.{four_of};
ghost use Rattle.route_map.specs.Merged.{identified};
ghost use Rattle.route_map.specs.Numbered.{least_identified};

use crate::ipv4_subnet::Ipv4Subnet;
use path_model::{Nlri, Prefix};
use std::cmp::Ordering;
use std::marker::Model;

// A prefix of IPv4 that was announced with a path identifier (RFC 7911, section 3). It takes 12 bytes, where an `Nlri` takes 32.
#[derive(Clone, Copy, Debug)]
pub(crate) struct Ipv4Nlri {
    subnet: Ipv4Subnet,
    path: u32,
}

impl Model for Ipv4Nlri {
    ghost use Rattle.std.specs.Option.{unwrap_or};
    ghost use Rattle.path_model.specs.declared.nlri.Nlri.{Nlri};
    ghost use Rattle.route_map.specs.Merged.{identified};
    ghost use Rattle.route_map.specs.Numbered.{least_identified};

    ghost Value = { Nlri };

    ghost view = { λ s. identified s.subnet s.path };

    ghost inverse = { λ n. record { subnet = n.prefix; path = unwrap_or n.path 0 } };
}

impl Ipv4Nlri {
    // The least of all with an identifier.
    pub(crate) fn least() -> Ipv4Nlri
        ensures { result ≡ least_identified }
    {
        Ipv4Nlri {
            subnet: Ipv4Subnet::least(),
            path: 0,
        }
    }

    // The prefix with this identifier, if it is one of IPv4.
    pub(crate) fn of(prefix: &Prefix, path: u32) -> Option<Ipv4Nlri>
        ensures { result ≡ option_map (λ s. identified s path) (four_of prefix.now) }
    {
        match Ipv4Subnet::of(prefix) {
            None => None,
            Some(subnet) => Some(Ipv4Nlri { subnet, path }),
        }
    }

    // The same as any announced prefix.
    pub(crate) fn nlri(&self) -> Nlri
        ensures { result ≡ self.now }
    {
        Nlri {
            prefix: self.subnet.prefix(),
            path: Some(self.path),
        }
    }
}

impl PartialEq for Ipv4Nlri {
    ghost eq = { eq_by_cmp nlri_cmp };

    ghost laws = { partial_equiv_from_equiv (eq_by_cmp_equiv nlri_total) };

    fn eq(&self, other: &Ipv4Nlri) -> bool {
        self.cmp(other).is_eq()
    }
}

impl Eq for Ipv4Nlri {
    ghost laws = { eq_by_cmp_equiv nlri_total };
}

impl PartialOrd for Ipv4Nlri {
    ghost partial_cmp = { λ a b. Some (nlri_cmp a b) };

    ghost laws = { partial_order_from_agreeing_total nlri_cmp nlri_total (λ x y. refl) (λ x y. refl) };

    fn partial_cmp(&self, other: &Ipv4Nlri) -> Option<Ordering> {
        Some(self.cmp(other))
    }
}

impl Ord for Ipv4Nlri {
    ghost cmp = { nlri_cmp };

    ghost total = { nlri_total };

    ghost matches_partial_cmp = { λ a b. refl };

    ghost matches_eq = { λ a b. refl };

    fn cmp(&self, other: &Ipv4Nlri) -> Ordering {
        self.subnet
            .cmp(&other.subnet)
            .then(self.path.cmp(&other.path))
    }
}
