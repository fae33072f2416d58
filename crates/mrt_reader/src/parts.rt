//! The parts of table records, as slices of them.
use crate::entries::Entries;
use path_model::{Peer, Prefix};

/// The parts of a RIB record.
#[derive(Clone, Copy, Debug)]
pub(crate) struct RibParts<'a> {
    pub(crate) prefix: Prefix,
    pub(crate) entries: Entries<'a>,
    // how many entries there are
    pub(crate) count: usize,
}

/// The parts of a TABLE_DUMP record.
#[derive(Clone, Copy, Debug)]
pub(crate) struct DumpParts<'a> {
    pub(crate) peer: Peer,
    pub(crate) prefix: Prefix,
    pub(crate) attributes: &'a [u8],
}
