//! The two parts of a file, what is filtered out and what is asserted. What both versions ask is kept, since the version may stand last.
ghost use Rattle.std.specs.Prelude.{◌≡◌, refl};
ghost use Rattle.slurm_rules.specs.Kept.{ArrayNames, AreDistinct, Drafts, PartIs, assertion_names, filter_names, names_view};

use crate::draft::{DraftAssertion, DraftPart, DraftPrefixAssertion, DraftPrefixFilter, Version};
use crate::element::CustomerFields;
use crate::prefix_element::PrefixFields;
use json::Reader;
use json_fields::{Entry, Fields, Objects, Read, array_after, only_after, pass, read_list};
use serde_json::Number;
use std::alloc::Global;

// The names of a part's arrays.
#[derive(Clone, Copy)]
pub(crate) struct PartNames {
    aspas: &'static str,
    bgpsec: &'static str,
    prefixes: &'static str,
}

// One of the two parts.
pub(crate) trait PartKind {
    // The elements of its array for attestations.
    type Aspa: Entry<CustomerFields>;

    // The elements of its array for prefixes.
    type Prefixed: Entry<PrefixFields>;

    ghost names: { ArrayNames };

    fn names() -> PartNames
        ensures { names_view result ≡ names };

    ghost distinct: { AreDistinct names };
}

// `validationOutputFilters`.
pub(crate) struct Filters;

impl PartKind for Filters {
    type Aspa = Number;

    type Prefixed = DraftPrefixFilter;

    ghost names = { filter_names };

    fn names() -> PartNames {
        PartNames {
            aspas: "aspaFilters",
            bgpsec: "bgpsecFilters",
            prefixes: "prefixFilters",
        }
    }

    ghost distinct = { record { aspas_bgpsec = refl; aspas_prefixes = refl; prefixes_bgpsec = refl } };
}

// `locallyAddedAssertions`.
pub(crate) struct Assertions;

impl PartKind for Assertions {
    type Aspa = DraftAssertion;

    type Prefixed = DraftPrefixAssertion;

    ghost names = { assertion_names };

    fn names() -> PartNames {
        PartNames {
            aspas: "aspaAssertions",
            bgpsec: "bgpsecAssertions",
            prefixes: "prefixAssertions",
        }
    }

    ghost distinct = { record { aspas_bgpsec = refl; aspas_prefixes = refl; prefixes_bgpsec = refl } };
}

// What is kept of a part.
#[derive(Drop)]
pub(crate) struct Part<P: PartKind> {
    // its members are those that version 1 lists
    one: bool,
    // those that version 2 lists
    two: bool,
    bgpsec: bool,
    prefixes: Option<Vec<P::Prefixed>>,
    aspas: Option<Vec<P::Aspa>>,
}

impl<P: PartKind> Fields for Part<P> {
    ghost keeps = { λ part d. PartIs P.Aspa.see P.Aspa.stands_for P.Prefixed.see P.Prefixed.stands_for P.names
        part.one part.two part.bgpsec part.prefixes part.aspas d };

    fn new(is_object: bool) -> Part<P> {
        Part {
            one: is_object,
            two: is_object,
            bgpsec: false,
            prefixes: None,
            aspas: None,
        }
    }

    fn keep(mut self, alloc: Global, name: &str, reader: &mut Reader, depth: usize) -> Read<Self> {
        let names = P::names();
        self.one = only_after(self.one, &[names.bgpsec, names.prefixes], name);
        self.two = only_after(self.two, &[names.aspas, names.bgpsec, names.prefixes], name);
        if name == names.aspas {
            self.aspas = read_list::<Objects<CustomerFields, P::Aspa>>(alloc, reader, depth)?;
            return Ok(self);
        }
        if name == names.prefixes {
            self.prefixes = read_list::<Objects<PrefixFields, P::Prefixed>>(alloc, reader, depth)?;
            return Ok(self);
        }
        let kind = pass(reader, depth)?;
        self.bgpsec = array_after(self.bgpsec, names.bgpsec, name, kind);
        Ok(self)
    }
}

impl<P: PartKind> Part<P> {
    // What the part says, where it is one of this version.
    pub(crate) fn into_draft(
        self,
        alloc: Global,
        version: Version,
    ) -> Option<DraftPart<P::Aspa, P::Prefixed>>
        ensures { Drafts P.Aspa.see P.Aspa.stands_for P.Prefixed.see P.Prefixed.stands_for P.names version
            self.one self.two self.bgpsec self.prefixes self.aspas result }
    {
        match version {
            Version::One => self.of_one(alloc),
            Version::Two => self.of_two(),
        }
    }

    fn of_one(self, alloc: Global) -> Option<DraftPart<P::Aspa, P::Prefixed>>
        ensures { Drafts P.Aspa.see P.Aspa.stands_for P.Prefixed.see P.Prefixed.stands_for P.names Version.One
            self.one self.two self.bgpsec self.prefixes self.aspas result }
    {
        if !self.one || !self.bgpsec {
            return None;
        }
        let prefixes = self.prefixes?;
        Some(DraftPart {
            aspas: Vec::new(alloc),
            prefixes,
        })
    }

    fn of_two(self) -> Option<DraftPart<P::Aspa, P::Prefixed>>
        ensures { Drafts P.Aspa.see P.Aspa.stands_for P.Prefixed.see P.Prefixed.stands_for P.names Version.Two
            self.one self.two self.bgpsec self.prefixes self.aspas result }
    {
        if !self.two || !self.bgpsec {
            return None;
        }
        let prefixes = self.prefixes?;
        let aspas = self.aspas?;
        Some(DraftPart { aspas, prefixes })
    }
}
