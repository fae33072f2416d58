//! Iterators over the ASes, segments, prefixes and attributes of slices, which take no memory.
ghost use Rattle.std.specs.Prelude.{◌≡◌, ◌≤◌, length, is_some, true};
ghost use Rattle.bgp_attrs.specs.Attributes.{field_at};
ghost use Rattle.bgp_attrs.specs.Joined.{items_of};
ghost use Rattle.bgp_attrs.specs.Prefixes.{nlri_at};
ghost use Rattle.bgp_attrs.specs.Segments.{segment_at};

use crate::fixed::take_asn;
use crate::splitting::{take_attribute, take_segment};
use crate::taking::take_nlri;
use path_model::Nlri;

/// The ASes of a segment that are still to come.
#[derive(Clone, Copy, Debug)]
pub struct Ases<'a> {
    pub(crate) rest: &'a [u8],
    pub(crate) wide: bool,
}

/// The segments of a path that are still to come: each one's kind (1 AS_SET, 2 AS_SEQUENCE, 3 AS_CONFED_SEQUENCE,
/// 4 AS_CONFED_SET) and its ASes.
#[derive(Clone, Copy, Debug)]
pub struct Segments<'a> {
    // segments, and nothing else
    pub(crate) rest: &'a [u8],
    pub(crate) wide: bool,
    ghost whole: { is_some (items_of (segment_at wide) rest.now) ≡ true },
}

/// The prefixes that are still to come, each with its path identifier if it has one.
#[derive(Clone, Copy, Debug)]
pub struct Prefixes<'a> {
    // prefixes, and nothing else
    pub(crate) rest: &'a [u8],
    pub(crate) six: bool,
    // whether each has a path identifier before it
    pub(crate) add_path: bool,
    ghost whole: { is_some (items_of (nlri_at add_path six) rest.now) ≡ true },
}

/// One attribute.
#[derive(Clone, Copy, Debug)]
pub(crate) struct Attribute<'a> {
    pub(crate) kind: u8,
    pub(crate) content: &'a [u8],
    ghost short: { length content.now ≤ 65535 },
}

/// The attributes that are still to come.
#[derive(Clone, Copy, Debug)]
pub(crate) struct AttributeList<'a> {
    // attributes, and nothing else
    pub(crate) rest: &'a [u8],
    ghost whole: { is_some (items_of field_at rest.now) ≡ true },
}

impl<'a> Iterator for Ases<'a> {
    ghost use Rattle.std.specs.Iterator.{YieldsFirst, item_count};
    ghost use Rattle.bgp_attrs.specs.Left.{ases_left};

    type Item = u32;

    ghost next_gives = { YieldsFirst ases_left };

    ghost remaining = { item_count ases_left };

    fn next(&mut self) -> Option<u32> {
        let (asn, rest) = take_asn(self.rest, self.wide)?;
        self.rest = rest;
        Some(asn)
    }
}

impl<'a> Iterator for Segments<'a> {
    ghost use Rattle.std.specs.Iterator.{YieldsFirstBy, item_count};
    ghost use Rattle.bgp_attrs.specs.Left.{ases_left, segments_left};

    type Item = (u8, Ases<'a>);

    ghost next_gives = { YieldsFirstBy (λ s. (s.0, ases_left s.1)) segments_left };

    ghost remaining = { item_count segments_left };

    fn next(&mut self) -> Option<(u8, Ases<'a>)> {
        let (segment, rest) = take_segment(self.rest, self.wide)?;
        self.rest = rest;
        Some(segment)
    }
}

impl<'a> Iterator for Prefixes<'a> {
    ghost use Rattle.std.specs.Iterator.{YieldsFirst, item_count};
    ghost use Rattle.bgp_attrs.specs.Left.{prefixes_left};

    type Item = Nlri;

    ghost next_gives = { YieldsFirst prefixes_left };

    ghost remaining = { item_count prefixes_left };

    fn next(&mut self) -> Option<Nlri> {
        match take_nlri(self.rest, self.six, self.add_path) {
            Some(taken) => {
                self.rest = taken.1;
                Some(taken.0)
            }
            None => None,
        }
    }
}

impl<'a> Iterator for AttributeList<'a> {
    ghost use Rattle.std.specs.Iterator.{YieldsFirstBy, item_count};
    ghost use Rattle.bgp_attrs.specs.Left.{field_of, fields_left};

    type Item = Attribute<'a>;

    ghost next_gives = { YieldsFirstBy field_of fields_left };

    ghost remaining = { item_count fields_left };

    fn next(&mut self) -> Option<Attribute<'a>> {
        let (attribute, rest) = take_attribute(self.rest)?;
        self.rest = rest;
        Some(attribute)
    }
}
