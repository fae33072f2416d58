//! What comes behind a reply.

/// Whether more PDUs are taken behind a reply.
#[derive(Clone, Copy, Debug, PartialEq, Eq)]
pub enum Turn {
    /// The next PDU is taken.
    More,
    /// The connection is closed: the router reported an error, or the reply is an Error Report (RFC 8210, section 5.11).
    Close,
}
