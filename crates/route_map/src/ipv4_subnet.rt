//! Prefixes of IPv4, held small.
ghost use Rattle.std.specs.Prelude.{◌≡◌, Some, refl};
ghost use Rattle.std.specs.Ordering.{eq_by_cmp};
ghost use Rattle.std.specs.Cmp.{eq_by_cmp_equiv, partial_equiv_from_equiv, partial_order_from_agreeing_total};
ghost use Rattle.path_model.specs.Order.{subnet_total};
ghost use Rattle.path_model.specs.Prefix.{subnet_cmp};
ghost use Rattle.route_map.specs.Families.{four_of};
ghost use Rattle.route_map.specs.Numbered.{least_subnet};

use path_model::{Addr, Prefix};
use std::cmp::Ordering;
use std::marker::Model;

// A prefix of IPv4. It takes 5 bytes, where a `Prefix` takes 24. The order is that of prefixes.
#[derive(Clone, Copy, Debug)]
pub(crate) struct Ipv4Subnet {
    // the bytes of the address, the highest first; a `u32` would be padded
    bits: [u8; 4],
    // how many bits the prefix has
    len: u8,
}

impl Model for Ipv4Subnet {
    ghost use Rattle.std.specs.Prelude.{ℕ, List, refl};
    ghost use Rattle.std.proofs.Common.{ap};
    ghost use Rattle.std.specs.Int.{w32, from_be_bytes, to_be_bytes};
    ghost use Rattle.std.proofs.lemmas.Nat.{be_bytes_4};
    ghost use Rattle.path_model.specs.Prefix.{Subnet, number_of};
    ghost use Rattle.route_map.specs.Packed.{packed_subnet, IsPacked};

    ghost Value = { Subnet };

    ghost view = { λ s. packed_subnet s.bits s.len };

    ghost inverse = { λ s. record { bits = to_be_bytes w32 (number_of s.addr); len = s.len } };

    ghost inverse_ok = { λ a packed. ap (λ (b : List ℕ). record { bits = b; len = a.len })
        (be_bytes_4 a.bits (from_be_bytes w32 a.bits) packed.four packed.small refl) };

    ghost invariant = { λ s. IsPacked s.bits s.len };
}

impl Ipv4Subnet {
    // The least of all prefixes, of either family.
    pub(crate) fn least() -> Ipv4Subnet
        ensures { result ≡ least_subnet }
    {
        Ipv4Subnet {
            bits: [0, 0, 0, 0],
            len: 0,
        }
    }

    // The prefix, if it is one of IPv4.
    pub(crate) fn of(prefix: &Prefix) -> Option<Ipv4Subnet>
        ensures { result ≡ four_of prefix.now }
    {
        let len = prefix.len();
        match prefix.addr() {
            Addr::V4(bits) => Some(Ipv4Subnet {
                bits: bits.to_be_bytes(),
                len,
            }),
            Addr::V6(_) => None,
        }
    }

    // The same as any prefix.
    pub(crate) fn prefix(&self) -> Prefix
        ensures { result ≡ self.now }
    {
        Prefix::new(Addr::V4(u32::from_be_bytes(self.bits)), self.len).unwrap()
    }
}

impl PartialEq for Ipv4Subnet {
    ghost eq = { eq_by_cmp subnet_cmp };

    ghost laws = { partial_equiv_from_equiv (eq_by_cmp_equiv subnet_total) };

    fn eq(&self, other: &Ipv4Subnet) -> bool {
        self.cmp(other).is_eq()
    }
}

impl Eq for Ipv4Subnet {
    ghost laws = { eq_by_cmp_equiv subnet_total };
}

impl PartialOrd for Ipv4Subnet {
    ghost partial_cmp = { λ a b. Some (subnet_cmp a b) };

    ghost laws = { partial_order_from_agreeing_total subnet_cmp subnet_total (λ x y. refl) (λ x y. refl) };

    fn partial_cmp(&self, other: &Ipv4Subnet) -> Option<Ordering> {
        Some(self.cmp(other))
    }
}

impl Ord for Ipv4Subnet {
    ghost cmp = { subnet_cmp };

    ghost total = { subnet_total };

    ghost matches_partial_cmp = { λ a b. refl };

    ghost matches_eq = { λ a b. refl };

    fn cmp(&self, other: &Ipv4Subnet) -> Ordering {
        u32::from_be_bytes(self.bits)
            .cmp(&u32::from_be_bytes(other.bits))
            .then(self.len.cmp(&other.len))
    }
}
