//! Conditions on routes.
ghost use Rattle.std.specs.Prelude.{◌≡◌};
ghost use Rattle.conditions.specs.Meets.{has_origin, has_verdict, is_covering, is_from, is_of_peer, is_prefix, is_through, is_within};
ghost use Rattle.conditions.specs.Meets.{meets, no_conditions, of_verdict};

use origin_model::{covers, origin_of};
use path_model::{Addr, Key, Prefix, Trail, Verdict};

/// Conditions on routes: a route is asked for where it meets each that is given, and without any all are. It takes 168 bytes.
#[derive(Clone, Copy, Debug, PartialEq, Eq)]
pub struct Conditions {
    /// The route has this verdict.
    pub verdict: Option<Verdict>,
    /// Its peer is in this AS.
    pub peer: Option<u32>,
    /// Its peer has this address.
    pub from: Option<Addr>,
    /// It leads to this prefix, no longer and no shorter one.
    pub prefix: Option<Prefix>,
    /// It leads to this prefix or to one that this one covers: a longer one that begins with its bits.
    pub within: Option<Prefix>,
    /// It leads to this prefix or to one that covers it: a shorter one with which its bits begin.
    pub covering: Option<Prefix>,
    /// Its path comes from this AS. A path with an AS_SET or without an AS comes from none.
    pub origin: Option<u32>,
    /// Its path has this AS somewhere, the origin and the neighbour included; the ASes of a segment that is an AS_SET aren't looked at.
    pub through: Option<u32>,
}

impl Conditions {
    /// No condition: all routes meet it.
    pub fn none() -> Conditions
        ensures { result ≡ no_conditions }
    {
        Conditions {
            verdict: None,
            peer: None,
            from: None,
            prefix: None,
            within: None,
            covering: None,
            origin: None,
            through: None,
        }
    }

    /// The one condition that a route has this verdict, or no condition.
    pub fn of_verdict(verdict: Option<Verdict>) -> Conditions
        ensures { result ≡ of_verdict verdict }
    {
        Conditions {
            verdict,
            ..Conditions::none()
        }
    }

    /// Whether a route with this key, verdict and path meets all. The path is looked at last, and only where a condition on it is given;
    /// then the time is that of its length. It takes no memory.
    pub fn meets(&self, key: &Key, verdict: Verdict, trail: &Trail) -> bool
        ensures { result ≡ meets self.now key.now verdict trail.now }
    {
        has_verdict(self.verdict, verdict)
            && is_of_peer(self.peer, key.peer.asn)
            && is_from(self.from, key.peer.addr)
            && is_prefix(&self.prefix, &key.prefix)
            && is_within(&self.within, &key.prefix)
            && is_covering(&self.covering, &key.prefix)
            && has_origin(self.origin, trail)
            && is_through(self.through, trail)
    }
}

fn has_verdict(asked: Option<Verdict>, verdict: Verdict) -> bool
    ensures { result ≡ has_verdict asked verdict }
{
    match asked {
        None => true,
        Some(asked) => asked == verdict,
    }
}

fn is_of_peer(asked: Option<u32>, asn: u32) -> bool
    ensures { result ≡ is_of_peer asked asn }
{
    match asked {
        None => true,
        Some(asked) => asked == asn,
    }
}

fn is_from(asked: Option<Addr>, addr: Addr) -> bool
    ensures { result ≡ is_from asked addr }
{
    match asked {
        None => true,
        Some(asked) => asked == addr,
    }
}

fn is_prefix(asked: &Option<Prefix>, prefix: &Prefix) -> bool
    ensures { result ≡ is_prefix asked.now prefix.now }
{
    match asked {
        None => true,
        Some(asked) => asked == prefix,
    }
}

// Whether the asked prefix covers the route's.
fn is_within(asked: &Option<Prefix>, prefix: &Prefix) -> bool
    ensures { result ≡ is_within asked.now prefix.now }
{
    match asked {
        None => true,
        Some(asked) => covers(asked, prefix),
    }
}

// Whether the route's prefix covers the asked one.
fn is_covering(asked: &Option<Prefix>, prefix: &Prefix) -> bool
    ensures { result ≡ is_covering asked.now prefix.now }
{
    match asked {
        None => true,
        Some(asked) => covers(prefix, asked),
    }
}

fn has_origin(asked: Option<u32>, trail: &Trail) -> bool
    ensures { result ≡ has_origin asked trail.now }
{
    match asked {
        None => true,
        Some(_) => origin_of(trail) == asked,
    }
}

fn is_through(asked: Option<u32>, trail: &Trail) -> bool
    ensures { result ≡ is_through asked trail.now }
{
    match asked {
        None => true,
        Some(asked) => trail.chain().as_slice().contains(&asked),
    }
}
