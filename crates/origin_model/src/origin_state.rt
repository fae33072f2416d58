//! States of routes by their origins.
ghost use Rattle.std.specs.Prelude.{◌≡◌};
ghost use Rattle.origin_model.specs.OriginState.{HasState, better, origin_of};

use crate::{Vrp, covers};
use path_model::{Prefix, Trail};

/// What validated ROA payloads say of a route's origin (RFC 6811, section 2).
#[derive(Clone, Copy, Debug, PartialEq, Eq)]
pub enum OriginState {
    /// A payload covers the route, and allows its origin and its length.
    Valid,
    /// Payloads cover the route, and none of them allows its origin and its length.
    Invalid,
    /// No payload covers the route.
    NotFound,
}

impl OriginState {
    /// The state by one payload alone.
    pub fn by_payload(v: &Vrp, prefix: &Prefix, origin: Option<u32>) -> OriginState
        ensures { HasState (λ w. w ≡ v.now) prefix.now origin result }
    {
        if !covers(&v.prefix(), prefix) {
            return OriginState::NotFound;
        }
        if v.asn() != 0 && origin == Some(v.asn()) && prefix.len() <= v.max() {
            return OriginState::Valid;
        }
        OriginState::Invalid
    }

    /// The better of two states, which is the state by all payloads that gave the one or the other.
    pub fn or(self, other: OriginState) -> OriginState
        ensures { result ≡ better self other }
    {
        match (self, other) {
            (OriginState::Valid, _) => OriginState::Valid,
            (_, OriginState::Valid) => OriginState::Valid,
            (OriginState::NotFound, OriginState::NotFound) => OriginState::NotFound,
            _ => OriginState::Invalid,
        }
    }
}

/// The AS that originated a path: `None` where the path has an AS_SET or no AS.
pub fn origin_of(trail: &Trail) -> Option<u32>
    ensures { result ≡ origin_of trail.now }
{
    if trail.is_set() {
        return None;
    }
    trail.chain().get(0)
}
