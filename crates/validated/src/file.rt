//! The whole file: its two arrays, in whatever order they stand.
ghost use Rattle.std.specs.Prelude.{◌≡◌, Some};
ghost use Rattle.serde_json.specs.Data.{Data};
ghost use Rattle.json_fields.specs.Tokens.{Holds, IsListOf, Keeps, Takes, items_view};
ghost use Rattle.validated.specs.Form.{IsFile, IsRoa, draft_view, roa_view};
ghost use Rattle.validated.specs.Kept.{FileIs};

use crate::aspa::AspaFields;
use crate::draft::{Draft, DraftAspa, DraftRoa};
use crate::roa::RoaFields;
use json::Reader;
use json_fields::{Fields, Objects, Read, pass, read_list};
use std::alloc::Global;

// What is kept of a file: none of an array with an element that is none, or of what is no array; of `roas` also whether it is there.
#[derive(Drop)]
pub(crate) struct File {
    aspas: Option<Vec<DraftAspa>>,
    roas: Option<Option<Vec<DraftRoa>>>,
}

impl Fields for File {
    ghost keeps = { FileIs };

    fn new(_is_object: bool) -> File {
        File {
            aspas: None,
            roas: Some(None),
        }
    }

    fn keep(mut self, alloc: Global, name: &str, reader: &mut Reader, depth: usize) -> Read<Self> {
        if name == "aspas" {
            self.aspas = read_list::<Objects<AspaFields, DraftAspa>>(alloc, reader, depth)?;
            return Ok(self);
        }
        if name == "roas" {
            self.roas = read_roas(alloc, reader, depth)?;
            return Ok(self);
        }
        pass(reader, depth)?;
        Ok(self)
    }
}

impl File {
    // What the file says, where it has the form.
    pub(crate) fn into_draft(self) -> Option<Draft>
        ensures { (d : Data) → FileIs self d → Holds draft_view result (IsFile d) }
    {
        let aspas = self.aspas?;
        let roas = self.roas?;
        Some(Draft { aspas, roas })
    }
}

// The array `roas`, which is there.
fn read_roas(
    alloc: Global,
    reader: &mut Reader<'_>,
    depth: usize,
) -> Read<Option<Option<Vec<DraftRoa>>>>
    ensures { Takes (λ kept d. Keeps (items_view roa_view) (IsListOf IsRoa) kept (Some d)) depth reader.old reader.new result }
{
    let roas = read_list::<Objects<RoaFields, DraftRoa>>(alloc, reader, depth)?;
    let Some(roas) = roas else {
        return Ok(None);
    };
    Ok(Some(Some(roas)))
}
