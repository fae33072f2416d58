//! Where an attribute field stands.

/// Where an attribute field stands. By it MP_REACH_NLRI and MP_UNREACH_NLRI are read or passed over.
#[derive(Clone, Copy, Debug, PartialEq, Eq)]
pub enum Form {
    /// In a table's record: both are passed over unread, since a record may spell MP_REACH_NLRI in full or without the fields
    /// that its header has (RFC 6396, section 4.3.4).
    Table,
    /// In an UPDATE message: both are read.
    Message,
}
