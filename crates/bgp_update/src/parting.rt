//! The parts of an UPDATE.
use bgp_attrs::Prefixes;

/// The parts of an UPDATE, as slices of it.
#[derive(Clone, Copy, Debug)]
pub(crate) struct Parts<'a> {
    pub(crate) withdrawn: Prefixes<'a>,
    pub(crate) attributes: &'a [u8],
    pub(crate) announced: Prefixes<'a>,
}
