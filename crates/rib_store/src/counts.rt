//! How many routes have which verdict.
ghost use Rattle.std.specs.Prelude.{◌≡◌};
ghost use Rattle.rib_store.specs.Counts.{counts_by};

use shared_cases::Totals;

/// The number of routes, and of those with each verdict.
#[derive(Clone, Copy, Debug, PartialEq, Eq)]
pub struct Counts {
    /// All routes.
    pub routes: u64,
    /// Those whose current verdict is `Valid`.
    pub valid: u64,
    /// Those whose current verdict is `Unknown`.
    pub unknown: u64,
    /// Those whose current verdict is `Invalid`.
    pub invalid: u64,
}

impl Counts {
    // So many routes, of whose cases these are the totals.
    pub(crate) fn of(routes: usize, totals: Totals) -> Counts
        ensures { result ≡ counts_by routes totals }
    {
        Counts {
            routes: routes as u64,
            valid: totals.valid,
            unknown: totals.unknown,
            invalid: totals.invalid,
        }
    }
}
