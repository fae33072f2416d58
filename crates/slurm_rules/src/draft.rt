//! The form of a file, with numbers as the tree holds them, and prefixes as they are written.
use serde_json::Number;

// The version of a file.
#[derive(Clone, Copy, Debug)]
pub(crate) enum Version {
    One,
    Two,
}

// What a file says.
#[derive(Drop)]
pub(crate) struct Draft {
    pub(crate) filters: DraftPart<Number, DraftPrefixFilter>,
    pub(crate) assertions: DraftPart<DraftAssertion, DraftPrefixAssertion>,
}

// What is filtered out, or what is asserted: of attestations, and of prefixes.
#[derive(Drop)]
pub(crate) struct DraftPart<A, P> {
    pub(crate) aspas: Vec<A>,
    pub(crate) prefixes: Vec<P>,
}

// One customer with its providers.
#[derive(Drop)]
pub(crate) struct DraftAssertion {
    pub(crate) customer: Number,
    pub(crate) providers: Vec<Number>,
}

// One prefix filter: the text of a prefix, an AS, or both.
#[derive(Drop)]
pub(crate) struct DraftPrefixFilter {
    pub(crate) prefix: Option<Vec<u8>>,
    pub(crate) asn: Option<Number>,
}

/// One prefix assertion as it is written (RFC 8416, section 3.4.1).
#[derive(Drop)]
pub struct DraftPrefixAssertion {
    /// The text of its prefix.
    pub prefix: Vec<u8>,
    /// Its AS, as a number of the tree.
    pub asn: Number,
    /// Its maximum length likewise; `None` is the prefix's own.
    pub max: Option<Number>,
}
