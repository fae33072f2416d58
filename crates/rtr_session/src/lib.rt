//! The router's side of the RPKI to Router protocol, version 2: what a client of a cache does with each PDU.
//!
//! A [`Session`] is the machine of draft-ietf-sidrops-8210bis, section 8, for ASPA and ROA payloads. It sends nothing itself: [`Session::ask`]
//! gives the next query, and [`Session::on`] takes a PDU and says what to do. That is the contract that the layer above uses: the
//! relation `Client` of `specs/Client.antt`, one row for each PDU and phase, of which exactly one holds. The module `laws` says so,
//! and that a patch which is to be applied has exactly the customers named since the cache began its answer, each with the row that it
//! has then, or with none; and that of the payloads those that the answer named are what it said, as the changes say that are handed out.
//!
//! Begin reading at `specs/State.antt`, and then at `specs/Client.antt`.
#![tactic(auto)]

mod act;
mod laws;
mod providers;
mod session;

pub use act::{Act, Delta, Ending, Phase, Query};
pub use laws::{
    each_pdu_has_one_case, each_state_has_one_query, patch_is_what_was_named,
    payload_changes_are_what_was_named, payloads_are_what_was_announced,
    whole_answer_is_what_was_announced,
};
pub use session::Session;
