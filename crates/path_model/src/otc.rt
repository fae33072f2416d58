//! What an announcement says of Only-to-Customer.

/// The attribute Only-to-Customer of an announcement (RFC 9234, section 5): the first of its type 35. It takes 8 bytes.
#[derive(Clone, Copy, Debug, PartialEq, Eq)]
pub enum Otc {
    /// The announcement has none.
    Absent,
    /// The AS that it names: from this AS on, the route may only have gone to customers.
    As(u32),
    /// Its length isn't 4.
    Malformed,
}
