//! Cases that routes share: a peer AS with a path, judged once for all routes that have it.
//!
//! The layer above uses one contract for each event: [`SharedCases::take`] and [`SharedCases::leave`] count the routes of a case,
//! [`SharedCases::leave_all`] those that leave at once, and [`SharedCases::follow_table`], [`SharedCases::follow_role`] and
//! [`SharedCases::follow_default`] judge anew exactly once what another table or other roles touch, so that **every case that had its right
//! judgement has it again**. The table is any [`path_model::Table`], lent with the roles as [`Grounds`]. [`SharedCases::totals`] says how
//! many routes have which verdict, and [`SharedCases::iter`] goes over the cases (`specs/Listed.antt`). Begin reading in `specs/Cases.antt`,
//! then in `specs/Taking.antt` and in `specs/Touched.antt`.
//!
//! A case has a number as long as some route has it. It is found by its name (`case_name`, `names`; `hints` looks for the cases of many names
//! ahead of their use, and `ahead` reads cases so), by its hops (the crate `hop_index`) and by its AS (`peers`, which also keeps whose cases
//! follow the default role, as `specs/Owning.antt` says), and its verdict stands in a list of bytes too (`verdicts`); each case that gets
//! another verdict than the marked one is told once to the caller (`specs/Differed.antt`), and its number is kept until the next mark. All
//! this stands beside the slab of cases as one (`kept`), and `specs/Kept.antt` says what keeps both together. Numbers are made rising by
//! `settling`, which sorts them or marks them in `bits`.
//!
//! A judgement depends on the table only by the hops of its own path, and another table differs only at the customers that moved. So a case
//! with none of their hops keeps its judgement (`MoveLemmas`, `FollowLemmas` of `proofs/`). Each judgement is that of another touched case
//! (`TouchLemmas`).
#![tactic(auto)]

mod ahead;
mod bits;
mod case;
mod case_iter;
mod case_name;
mod cases;
mod found;
mod grounds;
mod grouping;
mod hints;
mod kept;
mod leaving;
mod moved_rows;
mod names;
mod number_iter;
mod numbers;
mod peers;
mod rejudging;
mod settling;
mod slots;
mod totals;
mod touched;
mod unmatched;
mod verdicts;

pub use case::Case;
pub use case_iter::CaseIter;
pub use cases::SharedCases;
pub use found::FoundCases;
pub use grounds::Grounds;
pub use totals::Totals;
