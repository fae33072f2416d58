//! The whole file: its version and its two parts, in whatever order they stand.
ghost use Rattle.std.specs.Prelude.{◌≡◌, option_map};
ghost use Rattle.serde_json.specs.Data.{Data};
ghost use Rattle.serde_json.specs.View.{number_view};
ghost use Rattle.slurm_rules.specs.Form.{draft_view, IsFile};
ghost use Rattle.slurm_rules.specs.Kept.{FileIs, IsVersion};
ghost use Rattle.slurm_rules.specs.Reading.{HasVersion};
ghost use Rattle.json_fields.specs.Tokens.{Holds};

use crate::draft::{Draft, Version};
use crate::part::{Assertions, Filters, Part};
use json::Reader;
use json_fields::{Fields, Read, number_after, only_after, pass, read_object};
use serde_json::Number;
use std::alloc::Global;

// What is kept of a file.
#[derive(Drop)]
pub(crate) struct File {
    // its members are those that are listed
    only: bool,
    version: Option<Number>,
    filters: Part<Filters>,
    assertions: Part<Assertions>,
}

impl Fields for File {
    ghost keeps = { FileIs };

    fn new(is_object: bool) -> File {
        File {
            only: is_object,
            version: None,
            filters: Part::new(false),
            assertions: Part::new(false),
        }
    }

    fn keep(mut self, alloc: Global, name: &str, reader: &mut Reader, depth: usize) -> Read<Self> {
        self.only = only_after(
            self.only,
            &[
                "locallyAddedAssertions",
                "slurmVersion",
                "validationOutputFilters",
            ],
            name,
        );
        if name == "validationOutputFilters" {
            self.filters = read_object(alloc, reader, depth)?;
            return Ok(self);
        }
        if name == "locallyAddedAssertions" {
            self.assertions = read_object(alloc, reader, depth)?;
            return Ok(self);
        }
        let kind = pass(reader, depth)?;
        self.version = number_after(self.version, "slurmVersion", name, kind);
        Ok(self)
    }
}

impl File {
    // The version of the file, if it is known.
    pub(crate) fn version(&self) -> Option<Version>
        ensures { (d : Data) → FileIs self.now d → Holds (λ v. v) result (λ v. HasVersion v d) }
    {
        version_of(self.version)
    }

    // What the file says, where it has the form of this version.
    pub(crate) fn into_draft(self, alloc: Global, version: Version) -> Option<Draft>
        ensures { (d : Data) → FileIs self d → Holds draft_view result (IsFile version d) }
    {
        if !self.only {
            return None;
        }
        let filters = self.filters.into_draft(alloc, version)?;
        let assertions = self.assertions.into_draft(alloc, version)?;
        Some(Draft {
            filters,
            assertions,
        })
    }
}

// The version that a number is.
fn version_of(number: Option<Number>) -> Option<Version>
    ensures { Holds (λ v. v) result (IsVersion (option_map number_view number)) }
{
    match number?.as_u64()? {
        1 => Some(Version::One),
        2 => Some(Version::Two),
        _ => None,
    }
}
