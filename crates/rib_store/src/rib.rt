//! The routes with their current verdicts.
ghost use Rattle.std.specs.Prelude.{◌≡◌};
ghost use Rattle.std.specs.Iterator.{YieldsFirstBy, item_count};
ghost use Rattle.rib_store.specs.Rows.{rows_left, peer_rows_left, peers_left};
ghost use Rattle.rib_store.specs.Shown.{standing, standing_in};

use path_model::{Key, Nlri, Peer, Role, Trail, Verdict, Witness};
use route_map::{Iter, NlriIter, Peers};
use shared_cases::{Case, SharedCases};

/// One row for each route, its key and its current verdict, in key order. It judges nothing, and takes no memory.
#[derive(Drop)]
pub struct Rib<'a> {
    // the routes that are left
    pub(crate) rest: Iter<'a, u32>,
    pub(crate) cases: &'a SharedCases,
}

impl<'a> Iterator for Rib<'a> {
    type Item = (Key, Verdict);

    ghost next_gives = { YieldsFirstBy (λ row. row) rows_left };

    ghost remaining = { item_count rows_left };

    #[inline(always)]
    fn next(&mut self) -> Option<(Key, Verdict)> {
        match self.rest.next() {
            None => None,
            Some((key, number)) => Some((key, self.cases.verdict(*number as usize))),
        }
    }
}

/// The peers that have routes, in their order, each with its rows. It judges nothing, and takes no memory.
#[derive(Drop)]
pub struct RibPeers<'a> {
    // the peers that are left
    pub(crate) rest: Peers<'a, u32>,
    pub(crate) cases: &'a SharedCases,
}

impl<'a> Iterator for RibPeers<'a> {
    type Item = (Peer, PeerRows<'a>);

    ghost next_gives = { YieldsFirstBy (λ e. (e.0, peer_rows_left e.1)) peers_left };

    ghost remaining = { item_count peers_left };

    fn next(&mut self) -> Option<(Peer, PeerRows<'a>)> {
        match self.rest.next() {
            None => None,
            Some((peer, rest)) => Some((
                peer,
                PeerRows {
                    rest,
                    cases: self.cases,
                },
            )),
        }
    }
}

/// One row for each route of a peer: what it announced, and the current verdict, in order.
#[derive(Drop)]
pub struct PeerRows<'a> {
    // the routes that are left, and none where there are none
    pub(crate) rest: Option<NlriIter<'a, u32>>,
    pub(crate) cases: &'a SharedCases,
}

impl<'a> Iterator for PeerRows<'a> {
    type Item = (Nlri, Verdict);

    ghost next_gives = { YieldsFirstBy (λ row. row) peer_rows_left };

    ghost remaining = { item_count peer_rows_left };

    #[inline(always)]
    fn next(&mut self) -> Option<(Nlri, Verdict)> {
        match &mut self.rest {
            None => None,
            Some(rest) => match rest.next() {
                None => None,
                Some((nlri, number)) => Some((nlri, self.cases.verdict(*number as usize))),
            },
        }
    }
}

/// A route as it stands.
#[derive(Drop)]
pub struct Shown<'a> {
    /// Its current verdict.
    pub verdict: Verdict,
    /// Why it has it: the witness that is printed.
    pub witness: Witness,
    /// The role of its peer's AS.
    pub role: Role,
    /// Its path.
    pub trail: &'a Trail,
}

impl<'a> Shown<'a> {
    // What the case says of a route, in this role of its peer's AS.
    pub(crate) fn of(case: Case<'a>, role: Role) -> Shown<'a>
        ensures { standing result ≡ standing_in role case.entry.trail.now case.entry.judged.now }
    {
        Shown {
            verdict: case.judged.verdict(),
            witness: case.judged.witness(),
            role,
            trail: case.trail,
        }
    }
}
