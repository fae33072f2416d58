//! One case.
ghost use Rattle.std.specs.Prelude.{◌≡◌, IfOk};
ghost use Rattle.shared_cases.specs.Listed.{listed, shown};
ghost use Rattle.shared_cases.specs.Taking.{new_case};

use crate::case_name::CaseName;
use av_base::NoMemory;
use path_model::{Trail, Verdict};
use ramps::Judged;

// A case as it is kept.
#[derive(Drop)]
pub(crate) struct StoredCase {
    pub(crate) trail: Trail,
    // how many routes have it
    pub(crate) users: u32,
    pub(crate) judged: Judged,
    pub(crate) asn: u32,
    // its verdict at the last mark, or when it came
    pub(crate) marked: Verdict,
    // whether its verdict was another one than that at some time since
    pub(crate) differed: bool,
    // whether its AS is known to have a role of its own
    pub(crate) own: bool,
}

/// A case as it stands: a path from a peer AS, with its judgement.
#[derive(Drop)]
pub struct Case<'a> {
    /// The AS of the peers whose routes have the case.
    pub asn: u32,
    /// The path.
    pub trail: &'a Trail,
    /// Its verdict and the printed witness.
    pub judged: &'a Judged,
    /// Its verdict at the last mark, or when it came.
    pub marked: Verdict,
    /// How many routes have it: at least one.
    pub users: u32,
}

impl<'a> Case<'a> {
    // What is shown of a case.
    pub(crate) fn of(case: &'a StoredCase) -> Case<'a>
        ensures { shown result ≡ listed case.now }
    {
        Case {
            asn: case.asn,
            trail: &case.trail,
            judged: &case.judged,
            marked: case.marked,
            users: case.users,
        }
    }
}

// What is stored of a new case.
pub(crate) fn new_case(name: &CaseName, judged: Judged, own: bool) -> Result<StoredCase, NoMemory>
    ensures { IfOk result (λ case. case ≡ new_case name.now.asn name.now.trail judged own) }
{
    Ok(StoredCase {
        trail: name.trail.copy()?,
        users: 1,
        marked: judged.verdict(),
        judged,
        asn: name.asn,
        differed: false,
        own,
    })
}
