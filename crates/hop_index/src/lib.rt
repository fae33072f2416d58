//! Which stored cases have a hop between two ASes, so that a change of one AS's attestations finds the cases that it may touch.
//!
//! The layer above uses one contract: **[`HopIndex::through`] gives exactly the cases that were added and not removed with a hop between
//! x and some y, by rising y and then by rising case**; [`HopIndex::push_between`] appends those of one y, and [`HopIndex::neighbours`] gives
//! each such y once. `specs/Hops.antt` says what the hops of a chain are, and `specs/Index.antt` what it is that an index has a hop: begin
//! there. A hop is the same from either of its two ASes, since what a change of x does to a hop doesn't depend on which of the two is nearer
//! to the origin: the cases of a hop are held once, under both, and beside them the neighbours of each AS (`lists`). Both are sets of numbers
//! ([`Numbers`]), which the layer above uses too: a few by themselves, some in a list, many in chunks (`held`, `listed`, `chunked`).
//!
//! An index that is made by [`HopIndex::unlisted`] holds the chains of the cases alone (`loose`, `words`) until [`HopIndex::list`] makes these
//! lists, so that cases come and go at little cost as long as nobody asks for a hop; who asks nevertheless gets the same answer from the chains
//! (`least`, `loose_through`, `loose_neighbours`, `loose_between`).
#![tactic(auto)]

mod ahead;
mod chunked;
mod gone;
mod held;
mod hops;
mod index;
mod laws;
mod least;
mod listed;
mod listed_through;
mod lists;
mod loose;
mod loose_between;
mod loose_neighbours;
mod loose_through;
mod neighbour_iter;
mod neighbours;
mod number_iter;
mod numbers;
mod pair;
mod through;
mod words;

pub use ahead::HopsAhead;
pub use gone::GoneHops;
pub use index::HopIndex;
pub use laws::{ends_reach_cases, hops_join_neighbours, removal_undoes_addition};
pub use neighbour_iter::Neighbours;
pub use number_iter::NumberIter;
pub use numbers::Numbers;
pub use through::Through;
