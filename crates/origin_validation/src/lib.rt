//! Route origin validation (RFC 6811): the payloads that are held, by source, and the state of a route by those that are current.
//!
//! The layer above uses one contract: [`Origins::state`] answers the state that `specs/OriginState.antt` of `origin_model` defines for a
//! prefix and an origin, by the payloads that `specs/Current.antt` there calls current. `Origins::replace`, `Origins::patch` and
//! `Origins::slurm` change which those are. It looks up a state once, by `Records::state`, and holds it until something comes or goes that
//! covers the prefix; [`Origins::walk`] finds what is held of routes in their order. Begin reading in `origins`. `held` says what an event
//! forgets, `walk` goes along what is held, `records` has the payloads, `changes` makes changes of them, `covering` looks up what covers a
//! prefix in one set, and `fronts` says where the next shorter covering prefix may be.
#![tactic(auto)]

mod changes;
mod covering;
mod fronts;
mod held;
mod laws;
mod origins;
mod records;
mod walk;

pub use laws::{each_patch_has_one_result, routes_have_one_list_of_states};
pub use origin_model::OriginState;
pub use origins::Origins;
pub use records::Records;
pub use walk::Walk;
