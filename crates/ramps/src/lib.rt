//! The judgement of a path by ramps: its right verdict, and the witness of it that is printed.
//!
//! The layers above use one contract, that of [`judge`]: for any [`path_model::Table`] of attestations a [`Judged`] holds the right verdict
//! and the printed witness, and costs one step. It takes no memory and refuses nothing, and the work grows with the path's length.
//!
//! Begin reading in `walk`, where a chain is walked from one end, and then in `judging`, where the ramps are compared as in
//! draft-ietf-sidrops-aspa-verification.
//!
//! A walk from each end finds the ramps as far as they count (`WalkLemmas` of `proofs/`), and comparing them gives the witness
//! (`JudgingLemmas`). `path_model` proves that this is the printed witness, and that its verdict is the right one (`RampLemmas`,
//! `PrintedLemmas` and `WitnessLemmas` there). Two hops that stop the ramps leave no labelling. Where the ramps reach all ASes, the labelling
//! of the longest climb fits.
#![tactic(auto)]

mod judging;
mod small_witness;
mod walk;

pub use judging::{Judged, judge};
