//! The elements of `roas`, one at a time.
ghost use Rattle.std.specs.Prelude.{◌≡◌};
ghost use Rattle.validated.specs.Form.{IsRoa, Roa, roa_view};
ghost use Rattle.validated.specs.Kept.{RoaIs};

use crate::draft::{DraftRoa, Numeral};
use crate::numeral::{AsNumeral, MomentNumeral};
use json::Reader;
use json_fields::{
    Entry, Fields, Read, number_if_there_after, pass, text_if_there_after, value_after,
};
use serde_json::Number;
use std::alloc::Global;

// What is kept of an element. A member is none where it is of another kind.
#[derive(Drop)]
pub(crate) struct RoaFields {
    asn: Option<Option<Numeral>>,
    prefix: Option<Option<Vec<u8>>>,
    max: Option<Option<Number>>,
    expires: Option<Option<Numeral>>,
}

impl Fields for RoaFields {
    ghost keeps = { RoaIs };

    fn new(_is_object: bool) -> RoaFields {
        RoaFields {
            asn: Some(None),
            prefix: Some(None),
            max: Some(None),
            expires: Some(None),
        }
    }

    fn keep(mut self, alloc: Global, name: &str, reader: &mut Reader, depth: usize) -> Read<Self> {
        let kind = pass(reader, depth)?;
        self.asn = value_after::<AsNumeral>(self.asn, "asn", name, kind);
        self.max = number_if_there_after(self.max, "maxLength", name, kind);
        self.expires = value_after::<MomentNumeral>(self.expires, "expires", name, kind);
        self.prefix = text_if_there_after(alloc, self.prefix, "prefix", name, kind)?;
        Ok(self)
    }
}

// An element of `roas`.
impl Entry<RoaFields> for DraftRoa {
    ghost Seen = { Roa };

    ghost see = { roa_view };

    ghost stands_for = { IsRoa };

    fn of(kept: RoaFields) -> Option<DraftRoa> {
        let asn = kept.asn??;
        let max = kept.max?;
        let expires = kept.expires?;
        let prefix = kept.prefix??;
        Some(DraftRoa {
            asn,
            prefix,
            max,
            expires,
        })
    }
}
