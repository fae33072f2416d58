//! Prefixes, held in halves so that they take little memory.
ghost use Rattle.std.specs.Prelude.{◌≡◌, ◌<◌, ◌≤◌, ◌^◌, Some, refl};
ghost use Rattle.std.specs.Ordering.{eq_by_cmp};
ghost use Rattle.std.specs.Cmp.{eq_by_cmp_equiv, partial_equiv_from_equiv, partial_order_from_agreeing_total};
ghost use Rattle.path_model.specs.Halves.{subnet_of, IsHeld};
ghost use Rattle.path_model.specs.Order.{subnet_total};
ghost use Rattle.path_model.specs.Prefix.{prefix_of, without_last, subnet_cmp, IsSubnet};

use crate::Addr;
use crate::packed::Held;
use std::cmp::Ordering;
use std::marker::Model;

/// A prefix: the first bits of an address, and how many they are. All bits behind them are 0. It takes 24 bytes.
/// The order is by address and then by length, IPv4 before IPv6.
#[derive(Clone, Copy, Debug)]
pub struct Prefix {
    // the upper 64 bits of an IPv6 address, 0 for IPv4
    high: u64,
    // the lower 64 bits, or the 32 of an IPv4 address
    low: u64,
    len: u8,
    six: bool,
}

impl Model for Prefix {
    ghost use Rattle.path_model.specs.Prefix.{Subnet};
    ghost use Rattle.path_model.specs.Halves.{addr_from, is_six, high_of, low_of, IsHeld};

    ghost Value = { Subnet };

    ghost view = { λ p. record { addr = addr_from p.six p.high p.low; len = p.len } };

    ghost inverse = { λ s. record { high = high_of s.addr; low = low_of s.addr; len = s.len; six = is_six s.addr } };

    ghost invariant = { λ p. IsHeld p.six p.high p.low p.len };
}

impl Prefix {
    /// The prefix of an address: its first `len` bits. `None` comes exactly where `len` is over 32 or 128.
    pub fn new(addr: Addr, len: u8) -> Option<Prefix>
        ensures { result ≡ prefix_of addr len }
    {
        match addr {
            Addr::V4(bits) => Prefix::of_four(bits, len),
            Addr::V6(bits) => Prefix::of_six(bits, len),
        }
    }

    fn of_four(bits: u32, len: u8) -> Option<Prefix>
        ensures { result ≡ prefix_of (Addr.V4 bits) len }
    {
        if len > 32 {
            return None;
        }
        Some(Prefix {
            high: 0,
            low: u64::from(clear_last(bits, 32 - len)),
            len,
            six: false,
        })
    }

    fn of_six(bits: u128, len: u8) -> Option<Prefix>
        ensures { result ≡ prefix_of (Addr.V6 bits) len }
    {
        if len > 128 {
            return None;
        }
        let bits = clear_last_of_six(bits, 128 - len);
        Some(Prefix {
            high: (bits >> 64) as u64,
            low: (bits % (1 << 64)) as u64,
            len,
            six: true,
        })
    }

    /// The address of its bits, with zeros behind them.
    pub fn addr(&self) -> Addr
        ensures addr { result ≡ self.now.addr }
        ensures is_subnet { IsSubnet self.now }
    {
        if self.six {
            Addr::V6((u128::from(self.high) << 64) + u128::from(self.low))
        } else {
            Addr::V4(self.low as u32)
        }
    }

    /// How many bits it has: at most 32 or 128.
    pub fn len(&self) -> u8
        ensures len { result ≡ self.now.len }
        ensures is_subnet { IsSubnet self.now }
    {
        self.len
    }

    // As it is held.
    pub(crate) fn held(&self) -> Held
        ensures held { IsHeld result.six result.high result.low result.len }
        ensures prefix { self.now ≡ subnet_of result.six result.high result.low result.len }
    {
        Held {
            high: self.high,
            low: self.low,
            len: self.len,
            six: self.six,
        }
    }

    // The prefix that is held so.
    pub(crate) fn from_held(held: Held) -> Prefix
        requires { IsHeld held.six held.high held.low held.len }
        ensures { result ≡ subnet_of held.six held.high held.low held.len }
    {
        Prefix {
            high: held.high,
            low: held.low,
            len: held.len,
            six: held.six,
        }
    }
}

impl PartialEq for Prefix {
    ghost eq = { eq_by_cmp subnet_cmp };

    ghost laws = { partial_equiv_from_equiv (eq_by_cmp_equiv subnet_total) };

    fn eq(&self, other: &Prefix) -> bool {
        self.cmp(other).is_eq()
    }
}

impl Eq for Prefix {
    ghost laws = { eq_by_cmp_equiv subnet_total };
}

impl PartialOrd for Prefix {
    ghost partial_cmp = { λ a b. Some (subnet_cmp a b) };

    ghost laws = { partial_order_from_agreeing_total subnet_cmp subnet_total (λ x y. refl) (λ x y. refl) };

    fn partial_cmp(&self, other: &Prefix) -> Option<Ordering> {
        Some(self.cmp(other))
    }
}

impl Ord for Prefix {
    ghost cmp = { subnet_cmp };

    ghost total = { subnet_total };

    ghost matches_partial_cmp = { λ a b. refl };

    ghost matches_eq = { λ a b. refl };

    fn cmp(&self, other: &Prefix) -> Ordering {
        self.six
            .cmp(&other.six)
            .then(self.high.cmp(&other.high))
            .then(self.low.cmp(&other.low))
            .then(self.len.cmp(&other.len))
    }
}

// Clears so many of the last bits.
fn clear_last(bits: u32, spare: u8) -> u32
    requires { spare ≤ 32 }
    ensures { result ≡ without_last spare bits }
{
    if spare == 32 {
        return 0;
    }
    bits >> spare << spare
}

fn clear_last_of_six(bits: u128, spare: u8) -> u128
    requires { spare ≤ 128 }
    ensures { result ≡ without_last spare bits }
{
    if spare == 128 {
        return 0;
    }
    bits >> spare << spare
}
