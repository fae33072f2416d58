//! Witnesses of paths of at most 65,535 ASes, in less room.
ghost use Rattle.std.specs.Prelude.{◌≡◌};
ghost use Rattle.path_model.specs.Witness.{shown_by};
ghost use Rattle.ramps.specs.Small.{wide, AreSmall, IsSmall};

use path_model::{Verdict, Witness};

/// A witness whose numbers are below 2^16.
#[derive(Clone, Copy, Debug)]
pub(crate) enum SmallWitness {
    Valid {
        climbs: u16,
        free: u16,
        descents: u16,
    },
    Empty,
    Set,
    Neighbour,
    Blocked {
        first: u16,
        last: Option<u16>,
    },
    Unsettled {
        first: u16,
        last: Option<u16>,
        climbs: u16,
        free: u16,
        descents: u16,
    },
}

impl SmallWitness {
    /// The same witness in less room.
    pub(crate) fn of(witness: Witness) -> SmallWitness
        requires { AreSmall witness }
        ensures { wide result ≡ witness }
    {
        match witness {
            Witness::Empty => SmallWitness::Empty,
            Witness::Set => SmallWitness::Set,
            Witness::Neighbour => SmallWitness::Neighbour,
            Witness::Valid {
                climbs,
                free,
                descents,
            } => SmallWitness::Valid {
                climbs: climbs as u16,
                free: free as u16,
                descents: descents as u16,
            },
            Witness::Blocked { first, last } => SmallWitness::Blocked {
                first: first as u16,
                last: small(last),
            },
            Witness::Unsettled {
                first,
                last,
                climbs,
                free,
                descents,
            } => SmallWitness::Unsettled {
                first: first as u16,
                last: small(last),
                climbs: climbs as u16,
                free: free as u16,
                descents: descents as u16,
            },
        }
    }

    /// The verdict that the witness speaks for.
    pub(crate) fn verdict(self) -> Verdict
        ensures { result ≡ shown_by (wide self) }
    {
        match self {
            SmallWitness::Valid { .. } => Verdict::Valid,
            SmallWitness::Unsettled { .. } => Verdict::Unknown,
            SmallWitness::Empty
            | SmallWitness::Set
            | SmallWitness::Neighbour
            | SmallWitness::Blocked { .. } => Verdict::Invalid,
        }
    }

    /// The witness.
    pub(crate) fn witness(self) -> Witness
        ensures { result ≡ wide self }
    {
        match self {
            SmallWitness::Empty => Witness::Empty,
            SmallWitness::Set => Witness::Set,
            SmallWitness::Neighbour => Witness::Neighbour,
            SmallWitness::Valid {
                climbs,
                free,
                descents,
            } => Witness::Valid {
                climbs: u32::from(climbs),
                free: u32::from(free),
                descents: u32::from(descents),
            },
            SmallWitness::Blocked { first, last } => Witness::Blocked {
                first: u32::from(first),
                last: large(last),
            },
            SmallWitness::Unsettled {
                first,
                last,
                climbs,
                free,
                descents,
            } => Witness::Unsettled {
                first: u32::from(first),
                last: large(last),
                climbs: u32::from(climbs),
                free: u32::from(free),
                descents: u32::from(descents),
            },
        }
    }
}

// The number in less room, if there is one.
fn small(number: Option<u32>) -> Option<u16>
    requires { IsSmall number }
    ensures { result ≡ number }
{
    match number {
        None => None,
        Some(number) => Some(number as u16),
    }
}

// The number in the room of another type, if there is one.
fn large(number: Option<u16>) -> Option<u32>
    ensures { result ≡ number }
{
    match number {
        None => None,
        Some(number) => Some(u32::from(number)),
    }
}
