//! The ASes of a valley.
ghost use Rattle.std.specs.Prelude.{◌≡◌, Some, refl};
ghost use Rattle.std.specs.Ordering.{eq_by_cmp};
ghost use Rattle.std.specs.Cmp.{eq_by_cmp_equiv, partial_equiv_from_equiv, partial_order_from_agreeing_total};
ghost use Rattle.valleys.specs.Order.{to_cmp, valley_cmp, valley_total};

use std::cmp::Ordering;

/// The ASes of a valley, in the order in which the path went: `from` refuses `first` as its provider, and `to` refuses `last`. Where `first`
/// is `last`, that AS passed the path on to a provider or peer without having it from a customer; else it was some AS from `first` to `last`.
/// The order is by `from`, `first`, `last` and `to`, where `None` stands behind every number.
#[derive(Clone, Copy, Debug)]
pub struct Valley {
    /// The lower AS of the hop that refuses to climb.
    pub from: u32,
    /// The upper AS of that hop.
    pub first: u32,
    /// The lower AS of the hop that refuses to descend.
    pub last: u32,
    /// The upper AS of that hop; `None` where it is the export to us.
    pub to: Option<u32>,
}

impl PartialEq for Valley {
    ghost eq = { eq_by_cmp valley_cmp };

    ghost laws = { partial_equiv_from_equiv (eq_by_cmp_equiv valley_total) };

    fn eq(&self, other: &Valley) -> bool {
        self.cmp(other).is_eq()
    }
}

impl Eq for Valley {
    ghost laws = { eq_by_cmp_equiv valley_total };
}

impl PartialOrd for Valley {
    ghost partial_cmp = { λ a b. Some (valley_cmp a b) };

    ghost laws = { partial_order_from_agreeing_total valley_cmp valley_total (λ x y. refl) (λ x y. refl) };

    fn partial_cmp(&self, other: &Valley) -> Option<Ordering> {
        Some(self.cmp(other))
    }
}

impl Ord for Valley {
    ghost cmp = { valley_cmp };

    ghost total = { valley_total };

    ghost matches_partial_cmp = { λ a b. refl };

    ghost matches_eq = { λ a b. refl };

    fn cmp(&self, other: &Valley) -> Ordering {
        self.from.cmp(&other.from).then(
            self.first.cmp(&other.first).then(
                self.last
                    .cmp(&other.last)
                    .then(compare_to(self.to, other.to)),
            ),
        )
    }
}

// The order of the ASes behind two valleys.
fn compare_to(one: Option<u32>, other: Option<u32>) -> Ordering
    ensures { result ≡ to_cmp one other }
{
    one.is_none().cmp(&other.is_none()).then(one.cmp(&other))
}
