//! All that a run is passed down, as one parameter.
use av_base::{Links, Shelf, Sink, Steps};
use std::sync::ledger::Ledger;

/// What is outside, the text that is held, and the counter. It is made once, where a run begins, and lent from then on.
#[derive(Drop)]
pub(crate) struct Outside<'f, 'k, 'w, 't, 's, F: Shelf, K: Links, W: Sink, L: Ledger> {
    /// Files by name.
    pub(crate) shelf: &'f mut F,
    /// Connections.
    pub(crate) links: &'k mut K,
    /// What is written.
    pub(crate) out: &'w mut W,
    /// What is held.
    pub(crate) text: &'t mut Vec<u8>,
    /// The counter.
    pub(crate) steps: &'s mut Steps<L>,
}
