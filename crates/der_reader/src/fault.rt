//! Why bytes are no value.
use thiserror::Error;

/// Why bytes don't begin with a value, or with a number: the first rule that fails, read from the left.
#[derive(Clone, Copy, Debug, PartialEq, Eq, Error)]
pub enum DerFault {
    /// The tag, a byte of the length or a byte of the content is missing.
    #[error("the value is cut short")]
    Truncated,
    /// The first byte isn't the wanted tag.
    #[error("another tag")]
    Tag,
    /// The length isn't definite, isn't the shortest, or has more than four bytes after the first.
    #[error("not the shortest length")]
    Length,
    /// The content isn't the shortest of a number from 0 to 4,294,967,295.
    #[error("no number of 32 bits")]
    Integer,
}
