//! The store of an analysis: all that attests, the roles, and the routes, each with its verdict kept right from event to event.
//!
//! The layer above uses the contracts of [`RibStore`]: each change of it gives the state that `specs/State.antt` and
//! `path_model` (`Routes`, `Roles`) name, [`RibStore::rows`] lists each route with its current verdict in key order, and no event costs
//! more judgements than `specs/Touched.antt` says. Begin reading in `specs/State.antt`, and then in `store`.
//!
//! Each route has the number of a case that it shares with all routes of the same peer AS and path (the crate `shared_cases`);
//! `specs/Cased.antt` says how the routes and the marked verdicts are read through the cases, and what holds of them. `routing` changes one
//! route, `marks` notes what was marked of the keys whose route changed since or whose case got another verdict (`specs/Marks.antt`), `rib`
//! lists the routes with their verdicts, `trails` with their paths, `numbered` with the numbers of their cases and `shown_rows` as they
//! stand, `pairs` lists the distinct pairs of a peer
//! AS and a path (`specs/Pairs.antt`), and `journal` what changed since verdicts were marked, from the notes. How many routes have which
//! verdict (`counts`) the cases keep; `grounds` lends what they rest on, and `ahead` gets what changes need ahead of its use.
//!
//! An announcement takes its case: the one under its hint, else the one that its name finds, else a new one, which is judged. The key gets the
//! number of that case, and leaves the case that it had. The last route takes a case along.
//!
//! How that is proved: the cases stay those of the routes through each change (`StoredLemmas`, `CountedLemmas` of `proofs/`), so their
//! verdicts are the current ones (`VerdictLemmas`). The rows are the routes' keys in order with these verdicts (`RowLemmas`, `ReportLemmas`).
//! The changes are those among notes and routes (`NotedLemmas`, `MergeLemmas`, `JournalLemmas`); they are those among the notes alone where
//! each key whose case differed has one (`MarksLemmas`). A touched case is one of a touched route, so no event costs more than it touches
//! (`TouchedLemmas`), and what it touches is one number (`NumberLemmas`).
#![tactic(auto)]

mod ahead;
mod cases;
mod counts;
mod grounds;
mod journal;
mod laws;
mod marks;
mod merged;
mod numbered;
mod pairs;
mod rib;
mod routing;
mod shown_rows;
mod store;
mod trails;

pub use counts::Counts;
pub use journal::{ChangedKey, Journal};
pub use laws::{
    each_change_touches_one_number, each_state_has_one_list_of_changes, each_state_has_one_marking,
    each_state_has_one_report,
};
pub use numbered::NumberedRoutes;
pub use pairs::{Pair, Pairs};
pub use rib::{PeerRows, Rib, RibPeers, Shown};
pub use shown_rows::ShownRows;
pub use store::RibStore;
pub use trails::Trails;
