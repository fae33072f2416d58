//! The walk along a chain from one of its ends, and the ramps that it finds.
ghost use Rattle.std.specs.Prelude.{◌≡◌, ◌+◌, ◌<◌, ◌≤◌, length};
ghost use Rattle.ramps.specs.Walk.{AreOrdered, AreUpRamps, CountBeside, said};

use path_model::{Authority, Table};

/// How far the hops go on from one end, counted in ASes.
#[derive(Clone, Copy)]
pub(crate) struct Ramps {
    /// Up to the first hop that isn't attested.
    pub(crate) minimal: u32,
    /// Up to the first hop that is refused.
    pub(crate) maximal: u32,
}

/// The end of a chain at which a walk begins.
#[derive(Clone, Copy)]
pub(crate) enum End {
    /// Up from the origin: each AS is asked for the next one.
    Origin,
    /// Back from the neighbour: each AS is asked for the one before it.
    Neighbour,
}

/// The up-ramps: the walk ends at the first hop that is refused.
pub(crate) fn up_ramps<T: Table>(table: &T, chain: &[u32]) -> Ramps
    requires some { 0 < length chain.now }
    requires short { length chain.now ≤ 65535 }
    ensures are { AreUpRamps (T.rows table.now) chain.now result }
    ensures ordered { AreOrdered (length chain.now) result }
{
    let count = chain.len() as u32;
    let mut minimal = count;
    for j in 0..chain.len() - 1 {
        let ramp = (j + 1) as u32;
        match ask(table, chain, End::Origin, j) {
            Authority::Provides => {}
            Authority::Silent => minimal = minimal.min(ramp),
            Authority::Refuses => {
                return Ramps {
                    minimal: minimal.min(ramp),
                    maximal: ramp,
                };
            }
        }
    }
    Ramps {
        minimal,
        maximal: count,
    }
}

/// The down-ramps so far as they count beside these up-ramps: the walk ends where it meets the maximal up-ramp, or, while each hop is attested,
/// the minimal one. Nothing behind that counts.
#[inline(always)]
pub(crate) fn down_ramps_beside<T: Table>(table: &T, chain: &[u32], up: Ramps) -> Ramps
    requires some { 0 < length chain.now }
    requires short { length chain.now ≤ 65535 }
    requires up { AreOrdered (length chain.now) up }
    ensures count { CountBeside (T.rows table.now) chain.now up result }
    ensures ordered { AreOrdered (length chain.now) result }
{
    let count = chain.len() as u32;
    let mut minimal = count;
    for j in 0..chain.len() - 1 {
        let ramp = (j + 1) as u32;
        if up.maximal + ramp >= count && (minimal < count || up.minimal + ramp >= count) {
            return Ramps {
                minimal,
                maximal: count,
            };
        }
        match ask(table, chain, End::Neighbour, j) {
            Authority::Provides => {}
            Authority::Silent => minimal = minimal.min(ramp),
            Authority::Refuses => {
                return Ramps {
                    minimal: minimal.min(ramp),
                    maximal: ramp,
                };
            }
        }
    }
    Ramps {
        minimal,
        maximal: count,
    }
}

// What the AS at a step of the walk attests of the next one.
fn ask<T: Table>(table: &T, chain: &[u32], end: End, j: usize) -> Authority
    requires { j + 1 < length chain.now }
    ensures { result ≡ said end (T.rows table.now) chain.now j }
{
    match end {
        End::Origin => table.authority(chain[j], chain[j + 1]),
        End::Neighbour => {
            let lower = chain.len() - 2 - j;
            table.authority(chain[lower + 1], chain[lower])
        }
    }
}
