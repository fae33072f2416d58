//! Valleys: where a path that no completion makes valid was passed on to a provider or peer by an AS that hadn't it from a customer.
//!
//! The layer above uses one contract, that of [`valleys`]: for any [`path_model::Table`] of attestations it lists the distinct valleys of a
//! chain, strictly ascending, and each [`Valley`] names the ASes of its two hops. The hops are passed once, with two look-ups each, and a
//! chain without valleys takes no memory.
//!
//! Begin reading in `specs/Valleys.antt`, which says what a valley is, and then in `walk`. That a path whose printed witness is `Blocked` has
//! a valley, and that the two rows of a valley alone make a path invalid, are laws of `laws`.
#![tactic(auto)]

mod laws;
mod valley;
mod valley_list;
mod walk;

pub use laws::{blocked_paths_have_valleys, valleys_make_invalid};
pub use valley::Valley;
pub use valley_list::ValleyList;
pub use walk::valleys;
