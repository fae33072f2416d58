//! What a record says.
use crate::peers::PeerTable;
use path_model::Noted;

/// What a record says.
#[derive(Debug, Drop)]
pub enum Body {
    /// The peers that the RIB records behind it name.
    Peers(PeerTable),
    /// The changes that it makes, with a note of Only-to-Customer for each announcement (RFC 9234, section 5); none for a message or a
    /// state change that changes no route.
    Routes(Noted),
    /// It is of a type or subtype that is passed over unread.
    Passed,
}
