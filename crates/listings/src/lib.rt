//! What is shown of all that is held: the listings, and the summary.
//!
//! The layer above uses one contract, that of each `put_` function: it adds the lines of the rows that its definition lists, whole or,
//! where that ended early, a front of them ([`Lists`] of `specs/Listing.antt`). A listing is a type with the trait [`Listing`], whose
//! steps one loop takes ([`put_all`]). Begin reading in `listing`.
//!
//! `rows` is `report`, `suspected` is `suspects`, `hops` is `explain`, and `changes`, `leaks`, `origins`, `details`, `peers`, `silent`, `sent`,
//! `neighbours`, `attests` and `attests_of` (the command with an AS) are the commands of these names. Each has its definition in the module of
//! `specs/` of the same name; where a row says what other layers define, it is theirs (`rib_store`, `otc_check`, `origin_validation`).
//! `summary` sums up. Some look beside what they list. `details` keeps the routes that meet the conditions that it is given (`conditions`),
//! which is also the command `routes`. Of `origins` the states that were looked up before are found and each other one is held from then on,
//! so it has two loops of its own. For `peers` the module `seen` notes first which of the ASes with a role of their own have routes. The
//! suspects are found by `suspected_valleys` and the silent ASes by `asked_about`; by both routes are counted: `specs/Tallies.antt` says what
//! a list of these is, and `tallies` holds one, with a `tally` for each key. For `sent` the module `sent_verdicts` first judges each case that
//! has a route which is sent, once, as `behind` sees its path; for `neighbours` the module `gathering` reads the path of each case
//! of the AS's hops once, and holds for each AS beside it how many routes `went` to it and came from it.
//!
//! Lemmas for the proofs above are in `proofs/`: each line reads as no refusal, and each state has one list of each kind and one summary
//! (`ReportedLemmas`, `SummaryLemmas`, and the `Lemmas` of each listing's name); the rows of `attests` give its table again (`RestoreLemmas`).
#![tactic(auto)]

mod asked_about;
mod attests;
mod attests_of;
mod behind;
mod changes;
mod details;
mod gathering;
mod hops;
mod laws;
mod leaks;
mod listing;
mod neighbours;
mod origins;
mod peers;
mod rows;
mod seen;
mod sent;
mod sent_verdicts;
mod silent;
mod summary;
mod suspected;
mod suspected_valleys;
mod tallies;
mod tally;
mod went;

pub use asked_about::silent_ases;
pub use attests::put_attests;
pub use attests_of::put_attests_of;
pub use changes::put_changes;
pub use details::put_details;
pub use hops::{put_explained, put_hops};
pub use laws::{
    attests_restore_the_table, each_blocked_route_has_a_suspect, each_row_has_one_list_of_groups,
    each_state_has_one_list_of_details, each_state_has_one_list_of_neighbours,
    each_state_has_one_list_of_peers, each_state_has_one_list_of_sent,
    each_state_has_one_list_of_silent_ases, each_state_has_one_list_of_suspects,
    each_state_has_one_summary,
};
pub use leaks::put_leaks;
pub use listing::{Listing, put_all};
pub use neighbours::put_neighbours;
pub use origins::put_origins;
pub use peers::put_peers;
pub use rows::put_rows;
pub use sent::put_sent;
pub use silent::put_silent;
pub use summary::summary_of;
pub use suspected::put_suspects;
pub use suspected_valleys::suspects;
pub use tallies::Tallies;
pub use tally::Tally;
