//! The entries of a RIB record.
ghost use Rattle.std.specs.Prelude.{◌≡◌, is_some, true};
ghost use Rattle.bgp_attrs.specs.Joined.{items_of};
ghost use Rattle.mrt_reader.specs.Readers.{entry_at};

use crate::splitting::take_entry;

/// An entry: a peer's place in the peer table, and the path identifier, if there is one, and the attributes of its route.
#[derive(Clone, Copy, Debug)]
pub(crate) struct RibEntry<'a> {
    pub(crate) index: u16,
    pub(crate) path: Option<u32>,
    pub(crate) attributes: &'a [u8],
}

/// The entries that are still to come.
#[derive(Clone, Copy, Debug)]
pub(crate) struct Entries<'a> {
    // entries, and nothing else
    pub(crate) rest: &'a [u8],
    // whether each has a path identifier
    pub(crate) add_path: bool,
    ghost whole: { is_some (items_of (entry_at add_path) rest.now) ≡ true },
}

impl<'a> Iterator for Entries<'a> {
    ghost use Rattle.std.specs.Iterator.{YieldsFirstBy, item_count};
    ghost use Rattle.mrt_reader.specs.Left.{entry_of, entries_left};

    type Item = RibEntry<'a>;

    ghost next_gives = { YieldsFirstBy entry_of entries_left };

    ghost remaining = { item_count entries_left };

    fn next(&mut self) -> Option<RibEntry<'a>> {
        let (entry, rest) = take_entry(self.rest, self.add_path)?;
        self.rest = rest;
        Some(entry)
    }
}
