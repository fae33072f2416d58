//! Validated ROA payloads.
ghost use Rattle.std.specs.Prelude.{◌≡◌, ◌<◌, ◌⊎◌, IfSome, IfNone, Some, refl};
ghost use Rattle.std.specs.Ordering.{eq_by_cmp};
ghost use Rattle.std.specs.Cmp.{eq_by_cmp_equiv, partial_equiv_from_equiv, partial_order_from_agreeing_total};
ghost use Rattle.path_model.specs.Prefix.{bits_of};
ghost use Rattle.origin_model.specs.Vrp.{IsPayload, payload_of, payload_cmp, payload_total, least_of, greatest_of};

use path_model::{Addr, Prefix};
use std::cmp::Ordering;
use std::marker::Model;

/// A validated ROA payload (RFC 6811, section 2): an AS that may originate a prefix, and whatever the prefix covers up to a maximum length.
/// It takes 32 bytes. The order is by prefix, then by maximum length, and then by AS.
#[derive(Clone, Copy, Debug)]
pub struct Vrp {
    prefix: Prefix,
    asn: u32,
    max: u8,
}

impl Model for Vrp {
    ghost use Rattle.origin_model.specs.Vrp.{Payload, IsPayload, payload_of};

    ghost Value = { Payload };

    ghost view = { λ v. payload_of v.prefix v.max v.asn };

    ghost inverse = { λ v. record { prefix = v.prefix; asn = v.asn; max = v.max } };

    ghost invariant = { λ v. IsPayload (payload_of v.prefix v.max v.asn) };
}

impl Vrp {
    /// The payload of a prefix, a maximum length and an AS. `None` comes exactly where the maximum is below the prefix's length, or over
    /// 32 or 128. The AS may be 0, which makes no route valid.
    pub fn new(prefix: Prefix, max: u8, asn: u32) -> Option<Vrp>
        ensures some { IfSome result (λ v. (v ≡ payload_of prefix max asn) × IsPayload v) }
        ensures none { IfNone result ((max < prefix.len) ⊎ (bits_of prefix.addr < max)) }
    {
        if max < prefix.len() || max > bits_of_address(&prefix) {
            return None;
        }
        Some(Vrp { prefix, asn, max })
    }

    // The first payload of a prefix in the order.
    pub(crate) fn least_of(prefix: Prefix) -> Vrp
        ensures { result ≡ least_of prefix }
    {
        let max = prefix.len();
        Vrp {
            prefix,
            asn: 0,
            max,
        }
    }

    // The last payload of a prefix in the order.
    pub(crate) fn greatest_of(prefix: Prefix) -> Vrp
        ensures { result ≡ greatest_of prefix }
    {
        let max = bits_of_address(&prefix);
        let len = prefix.len();
        prove!(len <= max);
        Vrp {
            prefix,
            asn: u32::MAX,
            max,
        }
    }

    /// The prefix.
    pub fn prefix(&self) -> Prefix
        ensures { result ≡ self.now.prefix }
    {
        self.prefix
    }

    /// The maximum length, in bits, of what the AS may originate: from the prefix's length to 32 or 128.
    pub fn max(&self) -> u8
        ensures max { result ≡ self.now.max }
        ensures is_payload { IsPayload self.now }
    {
        self.max
    }

    /// The AS that may originate it.
    pub fn asn(&self) -> u32
        ensures { result ≡ self.now.asn }
    {
        self.asn
    }
}

// How many bits an address of the prefix's family has.
fn bits_of_address(prefix: &Prefix) -> u8
    ensures { result ≡ bits_of prefix.now.addr }
{
    match prefix.addr() {
        Addr::V4(_) => 32,
        Addr::V6(_) => 128,
    }
}

impl PartialEq for Vrp {
    ghost eq = { eq_by_cmp payload_cmp };

    ghost laws = { partial_equiv_from_equiv (eq_by_cmp_equiv payload_total) };

    fn eq(&self, other: &Vrp) -> bool {
        self.cmp(other).is_eq()
    }
}

impl Eq for Vrp {
    ghost laws = { eq_by_cmp_equiv payload_total };
}

impl PartialOrd for Vrp {
    ghost partial_cmp = { λ a b. Some (payload_cmp a b) };

    ghost laws = { partial_order_from_agreeing_total payload_cmp payload_total (λ x y. refl) (λ x y. refl) };

    fn partial_cmp(&self, other: &Vrp) -> Option<Ordering> {
        Some(self.cmp(other))
    }
}

impl Ord for Vrp {
    ghost cmp = { payload_cmp };

    ghost total = { payload_total };

    ghost matches_partial_cmp = { λ a b. refl };

    ghost matches_eq = { λ a b. refl };

    fn cmp(&self, other: &Vrp) -> Ordering {
        self.prefix
            .cmp(&other.prefix)
            .then(self.max.cmp(&other.max))
            .then(self.asn.cmp(&other.asn))
    }
}
