//! A whole file.
ghost use Rattle.std.specs.Prelude.{◌≡◌};
ghost use Rattle.json_fields.specs.Tree.{IsOfFile, IsOfText};

use crate::fault::{JsonFault, Read};
use crate::fields::{Fields, read_object};
use json::{Reader, Scratch};
use simdutf8::basic::from_utf8;
use std::alloc::Global;

// How deep arrays and objects may nest.
const MAX_DEPTH: usize = 127;

/// What is kept of a file. It takes one pass, and beside what is kept memory for a copy of the file at most.
pub fn read_file<F: Fields>(alloc: Global, bytes: &[u8]) -> Read<F>
    ensures { IsOfFile F.keeps bytes.now result }
{
    let Ok(text) = from_utf8(bytes) else {
        return Err(JsonFault::Json);
    };
    read_text(alloc, text)
}

// What is kept of a text.
fn read_text<F: Fields>(alloc: Global, text: &str) -> Read<F>
    ensures { IsOfText F.keeps text.now result }
{
    let mut scratch = Scratch::new(alloc);
    let mut reader = Reader::new(text, &mut scratch)?;
    let kept: F = read_object(alloc, &mut reader, MAX_DEPTH)?;
    if reader.next().is_some() {
        return Err(JsonFault::Json);
    }
    Ok(kept)
}
