//! The elements of `prefixFilters` and `prefixAssertions`, one at a time.
ghost use Rattle.std.specs.Prelude.{◌≡◌};
ghost use Rattle.slurm_rules.specs.Form.{IsPrefixAssertion, IsPrefixFilter, PrefixAssertionText, PrefixFilterText, prefix_assertion_view, prefix_filter_view};
ghost use Rattle.slurm_rules.specs.Kept.{PrefixIs};

use crate::draft::{DraftPrefixAssertion, DraftPrefixFilter};
use json::Reader;
use json_fields::{
    Entry, Fields, Read, number_if_there_after, only_after, pass, text_after, text_if_there_after,
};
use serde_json::Number;
use std::alloc::Global;

// What is kept of an element of `prefixFilters` or of `prefixAssertions`. A member is none where it is of another kind.
#[derive(Drop)]
pub(crate) struct PrefixFields {
    // its members are those that are listed for a filter
    filter: bool,
    // those that are listed for an assertion
    assertion: bool,
    comment: bool,
    prefix: Option<Option<Vec<u8>>>,
    asn: Option<Option<Number>>,
    max: Option<Option<Number>>,
}

impl Fields for PrefixFields {
    ghost keeps = { PrefixIs };

    fn new(is_object: bool) -> PrefixFields {
        PrefixFields {
            filter: is_object,
            assertion: is_object,
            comment: true,
            prefix: Some(None),
            asn: Some(None),
            max: Some(None),
        }
    }

    fn keep(mut self, alloc: Global, name: &str, reader: &mut Reader, depth: usize) -> Read<Self> {
        let kind = pass(reader, depth)?;
        self.filter = only_after(self.filter, &["asn", "comment", "prefix"], name);
        self.assertion = only_after(
            self.assertion,
            &["asn", "comment", "maxPrefixLength", "prefix"],
            name,
        );
        self.comment = text_after(self.comment, "comment", name, kind);
        self.asn = number_if_there_after(self.asn, "asn", name, kind);
        self.max = number_if_there_after(self.max, "maxPrefixLength", name, kind);
        self.prefix = text_if_there_after(alloc, self.prefix, "prefix", name, kind)?;
        Ok(self)
    }
}

// An element of `prefixFilters`: a prefix, an AS, or both.
impl Entry<PrefixFields> for DraftPrefixFilter {
    ghost Seen = { PrefixFilterText };

    ghost see = { prefix_filter_view };

    ghost stands_for = { IsPrefixFilter };

    fn of(kept: PrefixFields) -> Option<DraftPrefixFilter> {
        if !kept.filter || !kept.comment {
            return None;
        }
        let asn = kept.asn?;
        let prefix = kept.prefix?;
        if prefix.is_none() && asn.is_none() {
            return None;
        }
        Some(DraftPrefixFilter { prefix, asn })
    }
}

// An element of `prefixAssertions`.
impl Entry<PrefixFields> for DraftPrefixAssertion {
    ghost Seen = { PrefixAssertionText };

    ghost see = { prefix_assertion_view };

    ghost stands_for = { IsPrefixAssertion };

    fn of(kept: PrefixFields) -> Option<DraftPrefixAssertion> {
        if !kept.assertion || !kept.comment {
            return None;
        }
        let asn = kept.asn??;
        let max = kept.max?;
        let prefix = kept.prefix??;
        Some(DraftPrefixAssertion { prefix, asn, max })
    }
}
