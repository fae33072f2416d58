//! A checker of verdicts that stands apart from the judgement: it takes a verdict and a witness from whoever gives them, and tests hop by
//! hop what the witness shows.
//!
//! The layers above use one contract, that of [`confirm`]: it answers true exactly where the facts of the verdict and the witness hold
//! (`Facts` in `path_model/specs/Witness.antt`), for any [`path_model::Table`] and any numbers in the witness. Facts give the right verdict
//! ([`path_model::facts_decide`]), and each right verdict has a witness ([`path_model::right_verdict_has_witness`]); so who distrusts
//! the judgement needs to trust this crate alone. It takes no memory.
//!
//! Begin reading in `confirming`, with a case for each witness.
#![tactic(auto)]

mod confirming;
mod fitting;
mod hops;
mod silence;

pub use confirming::confirm;
