//! One attestation, with its end.
ghost use Rattle.std.specs.Prelude.{◌≡◌, Some, refl};
ghost use Rattle.std.specs.Ordering.{eq_by_cmp};
ghost use Rattle.std.specs.Cmp.{eq_by_cmp_equiv, partial_equiv_from_equiv, partial_order_from_agreeing_total};
ghost use Rattle.attestations.specs.Order.{term_total};
ghost use Rattle.attestations.specs.Terms.{term_cmp, is_alive};

use path_model::AsList;
use std::alloc::AllocError;
use std::cmp::Ordering;

/// What one attestation says of its customer (draft-ietf-sidrops-aspa-profile, section 3), and until when. It takes 48 bytes, and 4 more
/// for each provider where it has more than seven.
#[derive(Debug, Drop)]
pub struct Term {
    /// The providers.
    pub providers: AsList,
    /// The moment of its end, in seconds; `None` is never.
    pub until: Option<u32>,
}

impl Term {
    /// Whether the attestation is alive at a moment: its end is never, or is later.
    pub fn is_alive(&self, moment: u32) -> bool
        ensures { result ≡ is_alive moment self.now.until }
    {
        match self.until {
            None => true,
            Some(end) => moment < end,
        }
    }
}

impl Clone for Term {
    ghost is_clone = { λ a b. b ≡ a };

    fn clone(&self) -> Result<Term, AllocError> {
        Ok(Term {
            providers: self.providers.clone()?,
            until: self.until,
        })
    }
}

impl PartialEq for Term {
    ghost eq = { eq_by_cmp term_cmp };

    ghost laws = { partial_equiv_from_equiv (eq_by_cmp_equiv term_total) };

    fn eq(&self, other: &Term) -> bool {
        self.cmp(other).is_eq()
    }
}

impl Eq for Term {
    ghost laws = { eq_by_cmp_equiv term_total };
}

impl PartialOrd for Term {
    ghost partial_cmp = { λ a b. Some (term_cmp a b) };

    ghost laws = { partial_order_from_agreeing_total term_cmp term_total (λ x y. refl) (λ x y. refl) };

    fn partial_cmp(&self, other: &Term) -> Option<Ordering> {
        Some(self.cmp(other))
    }
}

impl Ord for Term {
    ghost cmp = { term_cmp };

    ghost total = { term_total };

    ghost matches_partial_cmp = { λ a b. refl };

    ghost matches_eq = { λ a b. refl };

    fn cmp(&self, other: &Term) -> Ordering {
        match self.until.cmp(&other.until) {
            Ordering::Equal => self.providers.as_slice().cmp(&other.providers.as_slice()),
            order => order,
        }
    }
}
