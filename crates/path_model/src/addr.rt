//! Addresses of either family.
ghost use Rattle.std.specs.Prelude.{Some, refl};
ghost use Rattle.std.specs.Ordering.{eq_by_cmp};
ghost use Rattle.std.specs.Cmp.{eq_by_cmp_equiv, partial_equiv_from_equiv, partial_order_from_agreeing_total};
ghost use Rattle.path_model.specs.Prefix.{addr_cmp};
ghost use Rattle.path_model.specs.Order.{addr_total};

use std::cmp::Ordering;

/// An address: of IPv4 with 32 bits, or of IPv6 with 128. It takes 32 bytes.
/// The order is that of the numbers, IPv4 before IPv6.
#[derive(Clone, Copy, Debug)]
pub enum Addr {
    /// An IPv4 address.
    V4(u32),
    /// An IPv6 address.
    V6(u128),
}

impl PartialEq for Addr {
    ghost eq = { eq_by_cmp addr_cmp };

    ghost laws = { partial_equiv_from_equiv (eq_by_cmp_equiv addr_total) };

    fn eq(&self, other: &Addr) -> bool {
        self.cmp(other).is_eq()
    }
}

impl Eq for Addr {
    ghost laws = { eq_by_cmp_equiv addr_total };
}

impl PartialOrd for Addr {
    ghost partial_cmp = { λ a b. Some (addr_cmp a b) };

    ghost laws = { partial_order_from_agreeing_total addr_cmp addr_total (λ x y. refl) (λ x y. refl) };

    fn partial_cmp(&self, other: &Addr) -> Option<Ordering> {
        Some(self.cmp(other))
    }
}

impl Ord for Addr {
    ghost cmp = { addr_cmp };

    ghost total = { addr_total };

    ghost matches_partial_cmp = { λ a b. refl };

    ghost matches_eq = { λ a b. refl };

    fn cmp(&self, other: &Addr) -> Ordering {
        match (self, other) {
            (Addr::V4(a), Addr::V4(b)) => a.cmp(b),
            (Addr::V4(_), Addr::V6(_)) => Ordering::Less,
            (Addr::V6(_), Addr::V4(_)) => Ordering::Greater,
            (Addr::V6(a), Addr::V6(b)) => a.cmp(b),
        }
    }
}
