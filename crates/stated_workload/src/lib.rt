//! The stated workload of a seed, and the text that it makes: what the words `demo N` do.
//!
//! The layer above uses one contract, that of [`perform`]: it performs the workload on an analysis of its own, and what it writes is the
//! text of the seed, or a front of it. That text is defined in `specs/Text.antt`: begin reading there, and then in `specs/Workload.antt`,
//! which says draw by draw what events a seed has. Each seed has exactly one workload and exactly one text (`laws`).
//!
//! `draws` asks the generator. `rows`, `roles`, `announcements` and `amendments` draw the events, and `workload` puts them in their
//! order. `happening` lets them happen, and `performing` writes.
#![tactic(auto)]

mod amendments;
mod announcements;
mod draws;
mod happening;
mod laws;
mod performing;
mod roles;
mod rows;
mod workload;

pub use laws::{each_seed_has_one_text, each_seed_has_one_workload};
pub use performing::perform;
pub use workload::{Workload, workload_of};
