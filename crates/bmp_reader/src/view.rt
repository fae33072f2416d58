//! The views of a peer's routes.

/// Which routes of a peer are read (RFC 7854, section 4.2: the L flag).
#[derive(Clone, Copy, Debug, PartialEq, Eq)]
pub enum View {
    /// Routes before the inbound policy of the router.
    Pre,
    /// Routes behind it.
    Post,
}
