//! The distinct pairs of a peer AS and a path that routes have.
ghost use Rattle.std.specs.Prelude.{◌<◌, ◌^◌, length};
ghost use Rattle.std.specs.Iterator.{YieldsFirstBy, item_count};
ghost use Rattle.rib_store.specs.Pairs.{paired, pairs_left, ArePairs};

use crate::RibStore;
use path_model::{Role, Roles, Trail, Verdict, Witness};
use shared_cases::CaseIter;

/// A path from a peer AS, as it stands, and how many routes have the two.
#[derive(Drop)]
pub struct Pair<'a> {
    /// The AS of the peers.
    pub asn: u32,
    /// The path.
    pub trail: &'a Trail,
    /// How many routes from peers in this AS have this path: at least one.
    pub routes: u64,
    /// The role of the AS.
    pub role: Role,
    /// The current verdict of these routes.
    pub verdict: Verdict,
    /// Why they have it: the witness that is printed.
    pub witness: Witness,
}

/// The pairs that are still to come, in no order that is told. It judges nothing, visits no route, and takes no memory; the role of each AS
/// is looked up.
#[derive(Drop)]
pub struct Pairs<'a> {
    // the cases that are left
    pub(crate) rest: CaseIter<'a>,
    pub(crate) roles: &'a Roles,
}

impl<'a> Iterator for Pairs<'a> {
    type Item = Pair<'a>;

    ghost next_gives = { YieldsFirstBy paired pairs_left };

    ghost remaining = { item_count pairs_left };

    fn next(&mut self) -> Option<Pair<'a>> {
        let case = self.rest.next()?;
        Some(Pair {
            asn: case.asn,
            trail: case.trail,
            routes: u64::from(case.users),
            role: self.roles.of(case.asn),
            verdict: case.judged.verdict(),
            witness: case.judged.witness(),
        })
    }
}

impl RibStore {
    /// Each distinct pair of a peer's AS and a path that some route has, once, with how many routes have it and how it stands. It takes no
    /// memory. To go over all of them takes a step for each number that a case ever had.
    pub fn pairs(&self) -> Pairs<'_>
        ensures pairs { ArePairs self.now.state (pairs_left result) }
        ensures few { length (pairs_left result) < 2 ^ 64 }
    {
        let _length = self.routing.routes.len();
        self.routing.cases.are_distinct();
        Pairs {
            rest: self.routing.cases.iter(),
            roles: &self.roles,
        }
    }
}
