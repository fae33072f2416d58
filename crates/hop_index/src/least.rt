//! The least other end of an AS's hops in chains, from an AS on.
ghost use Rattle.std.specs.Prelude.{◌≡◌, ◌||◌, ◌&&◌, ℕ, Bool, nat_eq};
ghost use Rattle.hop_index.specs.Hops.{has_hop};
ghost use Rattle.hop_index.specs.Least.{IsLeast};
ghost use Rattle.hop_index.specs.Loose.{are_beside};

use crate::loose::Loose;

// Whether a chain has a hop between two ASes.
pub(crate) fn joins(chain: &[u32], x: u32, y: u32) -> bool
    ensures { result ≡ has_hop chain.now x y }
{
    for k in 1..chain.len() {
        if is_between(chain[k - 1], chain[k], x, y) {
            return true;
        }
    }
    false
}

// Whether the hop between two ASes is that between two others.
fn is_between(lower: u32, upper: u32, x: u32, y: u32) -> bool
    ensures { result ≡ ((nat_eq x lower && nat_eq y upper) || (nat_eq x upper && nat_eq y lower)) }
{
    (x == lower && y == upper) || (x == upper && y == lower)
}

// The least AS from one on to which some chain has a hop from x.
pub(crate) fn least_beside(loose: &Loose, x: u32, from: u64) -> Option<u32>
    ensures { IsLeast (are_beside loose.now x) from result }
{
    let mut least = None;
    for case in 0..loose.len() {
        least = lesser(least, least_in(loose.get(case), x, from));
    }
    least
}

// The same of one chain.
fn least_in(chain: &[u32], x: u32, from: u64) -> Option<u32>
    ensures { IsLeast (has_hop chain.now x) from result }
{
    let mut least = None;
    for k in 1..chain.len() {
        least = lesser(least, least_of(chain[k - 1], chain[k], x, from));
    }
    least
}

// The same of one hop.
fn least_of(lower: u32, upper: u32, x: u32, from: u64) -> Option<u32>
    ensures { IsLeast (λ y. (nat_eq x lower && nat_eq y upper) || (nat_eq x upper && nat_eq y lower))
        from result }
{
    lesser(
        one_of(x == lower, upper, from),
        one_of(x == upper, lower, from),
    )
}

// An AS where it counts and is at least this one.
fn one_of(counts: bool, y: u32, from: u64) -> Option<u32>
    ensures { IsLeast (λ z. counts && nat_eq z y) from result }
{
    if counts && u64::from(y) >= from {
        Some(y)
    } else {
        None
    }
}

// The lesser of two ASes, or the one that is there.
fn lesser(one: Option<u32>, other: Option<u32>) -> Option<u32>
    ensures { (p q : ℕ → Bool) (from : ℕ) → IsLeast p from one → IsLeast q from other
        → IsLeast (λ y. p y || q y) from result }
{
    match (one, other) {
        (None, _) => other,
        (_, None) => one,
        (Some(a), Some(b)) => Some(a.min(b)),
    }
}
