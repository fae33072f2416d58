//! Why a path has its verdict.
ghost use Rattle.std.specs.Prelude.{◌≡◌};

use crate::Verdict;

/// Why a path has its verdict. Hop 1 joins the origin and the next AS, and a path of N ASes has N - 1 hops.
/// A hop climbs where its lower AS (the one nearer the origin) attests the upper one as its provider, and descends where the upper one
/// attests the lower one. It refuses to where that AS attests, but not the other.
#[derive(Clone, Copy, Debug, PartialEq, Eq)]
pub enum Witness {
    /// Valid: from the origin on so many hops climb, then so many (0 or 1) need nothing, then so many descend.
    Valid {
        climbs: u32,
        free: u32,
        descents: u32,
    },
    /// Invalid: the path has no AS.
    Empty,
    /// Invalid: the path has an AS_SET.
    Set,
    /// Invalid: the path doesn't end at the neighbour.
    Neighbour,
    /// Invalid: the hop `first` refuses to climb, and downstream the later hop `last` refuses to descend; upstream `last` is `None`.
    Blocked {
        first: u32,
        last: Option<u32>,
    },
    /// Unknown: the hop `first` doesn't climb, and downstream the later hop `last` doesn't descend; upstream `last` is `None`.
    /// Did the silent ASes attest what they are asked, so many hops would climb, so many need nothing, and so many descend.
    Unsettled {
        first: u32,
        last: Option<u32>,
        climbs: u32,
        free: u32,
        descents: u32,
    },
}

impl Witness {
    ghost use Rattle.path_model.specs.Witness.{shown_by};

    /// The verdict that this witness speaks for, whether its facts hold or not.
    pub fn verdict(self) -> Verdict
        ensures { result ≡ shown_by self }
    {
        match self {
            Witness::Valid { .. } => Verdict::Valid,
            Witness::Unsettled { .. } => Verdict::Unknown,
            Witness::Empty | Witness::Set | Witness::Neighbour | Witness::Blocked { .. } => {
                Verdict::Invalid
            }
        }
    }
}
