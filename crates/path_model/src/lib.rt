//! What a path's verdict is: the types that all layers share, and the definitions of the right verdict and of its witness.
//!
//! The crate judges nothing. The layers above use its definitions: the right verdict (`specs/RightVerdict.antt`), the facts of a witness
//! (`specs/Witness.antt`) and the one that is printed (`specs/PrintedWitness.antt`), for any [`Table`] of attestations; and their laws,
//! each the contract of a function of `laws`. Begin reading in `specs/RightVerdict.antt`, and then in `specs/Labelling.antt`.
#![tactic(auto)]

mod addr;
mod as_list;
mod authority;
mod batch;
mod change;
mod changes;
mod few_ases;
mod gathered;
mod key;
mod laws;
mod leak;
mod name;
mod nlri;
mod nlri_iter;
mod nlri_list;
mod noted;
mod notes;
mod otc;
mod packed;
mod patch;
mod peer;
mod prefix;
mod role;
mod roles;
mod rows;
mod trail;
mod verdict;
mod witness;

pub use addr::Addr;
pub use as_list::AsList;
pub use authority::{Authority, Table};
pub use batch::Batch;
pub use change::Change;
pub use changes::Changes;
pub use gathered::Gathered;
pub use key::Key;
pub use laws::{
    each_case_has_one_right_verdict, each_case_has_one_witness, facts_decide,
    fullest_completion_decides, hops_decide, hops_decide_witnesses, printed_witness_has_facts,
    ramps_decide, right_verdict_has_witness,
};
pub use leak::Leak;
pub use name::{MOST_NAME_BYTES, Name};
pub use nlri::Nlri;
pub use nlri_iter::NlriIter;
pub use nlri_list::NlriList;
pub use noted::Noted;
pub use notes::Notes;
pub use otc::Otc;
pub use patch::{Patch, PatchEntries};
pub use peer::Peer;
pub use prefix::Prefix;
pub use role::{Direction, Role};
pub use roles::{OwnRoles, Roles};
pub use rows::{RowEntries, Rows};
pub use trail::Trail;
pub use verdict::Verdict;
pub use witness::Witness;
