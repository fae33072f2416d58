//! Changes with the notes of their announcements.
use crate::{Changes, Notes};

/// The changes that one message or record makes, and beside them one note for each announcement among them, in order.
#[derive(Debug, Drop)]
pub struct Noted {
    /// The changes.
    pub changes: Changes,
    /// What the announcements say of Only-to-Customer (RFC 9234, section 5).
    pub notes: Notes,
}
