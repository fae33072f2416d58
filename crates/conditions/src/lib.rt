//! By what routes are asked for: [`Conditions`] on a route's verdict, peer, prefix and path, each given or not.
//!
//! The layers above use one contract: **[`Conditions::meets`] tells whether a route meets all conditions that are given.** A script's
//! line gives them, and a listing keeps the rows that meet them. Begin reading in `specs/Meets.antt`; `laws` says of its test of prefixes
//! that it is that of RFC 6811, section 2.
#![tactic(auto)]

mod asked;
mod laws;

pub use asked::Conditions;
pub use laws::prefixes_are_tested_by_covering;
