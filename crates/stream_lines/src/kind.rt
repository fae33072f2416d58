//! The kinds of dumps.

/// What a dump holds.
#[derive(Clone, Copy, Debug, PartialEq, Eq)]
pub enum DumpKind {
    /// Records of MRT (RFC 6396).
    Mrt,
    /// Messages of BMP (RFC 7854), of which routes before the router's inbound policy are read.
    BmpPre,
    /// Messages of BMP, of which routes behind that policy are read.
    BmpPost,
}
