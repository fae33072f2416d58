//! How many routes have cases with which verdict.
ghost use Rattle.std.specs.Prelude.{◌≡◌, IfOk};
ghost use Rattle.shared_cases.specs.Totals.{minus, no_users, plus, users_of};

use av_base::NoMemory;
use path_model::Verdict;

/// The numbers of routes that have cases with each verdict.
#[derive(Clone, Copy, Debug, PartialEq, Eq)]
pub struct Totals {
    /// Those of cases that are `Valid`.
    pub valid: u64,
    /// Those of cases that are `Unknown`.
    pub unknown: u64,
    /// Those of cases that are `Invalid`.
    pub invalid: u64,
}

impl Totals {
    // No routes.
    pub(crate) fn none() -> Totals
        ensures { result ≡ no_users }
    {
        Totals {
            valid: 0,
            unknown: 0,
            invalid: 0,
        }
    }

    // So many routes, all with this verdict.
    pub(crate) fn of(verdict: Verdict, users: u32) -> Totals
        ensures { result ≡ users_of verdict users }
    {
        let mut totals = Totals::none();
        match verdict {
            Verdict::Valid => totals.valid = u64::from(users),
            Verdict::Unknown => totals.unknown = u64::from(users),
            Verdict::Invalid => totals.invalid = u64::from(users),
        }
        totals
    }

    // These and others. Where a number would be over its type there is no memory.
    pub(crate) fn plus(self, other: Totals) -> Result<Totals, NoMemory>
        ensures { IfOk result (λ totals. totals ≡ plus self other) }
    {
        let valid = self.valid.checked_add(other.valid).ok_or(NoMemory)?;
        let unknown = self.unknown.checked_add(other.unknown).ok_or(NoMemory)?;
        let invalid = self.invalid.checked_add(other.invalid).ok_or(NoMemory)?;
        Ok(Totals {
            valid,
            unknown,
            invalid,
        })
    }

    // These without some of them.
    pub(crate) fn minus(self, other: Totals) -> Totals
        ensures { result ≡ minus self other }
    {
        Totals {
            valid: self.valid.saturating_sub(other.valid),
            unknown: self.unknown.saturating_sub(other.unknown),
            invalid: self.invalid.saturating_sub(other.invalid),
        }
    }
}
