//! What validated ROA payloads say of a route's origin (RFC 6811): the payloads, sets and filters of them, and the definition of a route's
//! state.
//!
//! The crate keeps no routes. The layers above use its definitions: which payloads are current (`specs/Current.antt`) and which state a
//! route has by them (`specs/OriginState.antt`); and their laws, each the contract of a function of `laws`. It also has what those layers
//! hold: [`VrpSet`], a set of payloads in their order, in which those of one prefix are found by a look-up; [`VrpChanges`], what was said
//! of payloads since some moment; and [`PrefixFilters`].
//! Begin reading in `specs/OriginState.antt`.
#![tactic(auto)]

mod covering;
mod laws;
mod origin_state;
mod prefix_filter;
mod vrp;
mod vrp_changes;
mod vrp_entries;
mod vrp_set;

pub use covering::covers;
pub use laws::{
    as_0_makes_nothing_valid, changes_make_one_set, covering_is_an_order, each_route_has_one_state,
    routes_without_origin_are_never_valid,
};
pub use origin_state::{OriginState, origin_of};
pub use prefix_filter::{PrefixFilter, PrefixFilters};
pub use vrp::Vrp;
pub use vrp_changes::{VrpChangeEntries, VrpChanges};
pub use vrp_entries::VrpEntries;
pub use vrp_set::VrpSet;
