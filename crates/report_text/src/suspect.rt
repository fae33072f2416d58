//! The line that reports a valley of paths.
ghost use Rattle.std.specs.Prelude.{◌≡◌, ◌++◌, OnOk, OnErr};
ghost use Rattle.av_text.specs.Parts.{IsGrown};
ghost use Rattle.report_text.specs.Suspects.{having_text, inside_text, suspect_text, to_text, valley_text};

use crate::count::push_count;
use av_base::NoMemory;
use av_text::put_u64;

/// A valley of paths, and how many have it.
#[derive(Clone, Copy, Debug, PartialEq, Eq)]
pub struct Suspect {
    /// The AS before the valley.
    pub from: u32,
    /// The first AS in it.
    pub first: u32,
    /// The last AS in it.
    pub last: u32,
    /// The AS after it; `None` where that is us.
    pub to: Option<u32>,
    /// How many routes have it.
    pub routes: u64,
    /// How many paths have it.
    pub paths: u64,
}

/// Appends `FROM FIRST LAST TO routes R paths P`, whole or not at all; TO is `here` for `None`. A line has 25 to 99 bytes with its line
/// feed, and what it takes is that room in `out` alone.
pub fn put_suspect(out: &mut Vec<u8>, suspect: Suspect) -> Result<(), NoMemory>
    ensures ok { OnOk result (out.new.items ≡ out.old.items ++ suspect_text suspect) }
    ensures err { OnErr result (out.new.items ≡ out.old.items) }
{
    let start = out.len();
    let done = push_suspect(out, suspect);
    if done.is_err() {
        out.truncate(start);
    }
    done
}

// Appends the line, or a front of it where that fails.
fn push_suspect(out: &mut Vec<u8>, suspect: Suspect) -> Result<(), NoMemory>
    ensures ok { OnOk result (out.new.items ≡ out.old.items ++ suspect_text suspect) }
    ensures grown { IsGrown out.old.items out.new.items }
{
    push_valley(out, suspect.from, suspect.first, suspect.last, suspect.to)?;
    push_having(out, suspect.routes, suspect.paths)?;
    out.push(b'\n')?;
    Ok(())
}

// Appends the ASes at both ends of the valley, or a front of that where it fails.
fn push_valley(
    out: &mut Vec<u8>,
    from: u32,
    first: u32,
    last: u32,
    to: Option<u32>,
) -> Result<(), NoMemory>
    ensures ok { OnOk result (out.new.items ≡ out.old.items ++ valley_text from first last to) }
    ensures grown { IsGrown out.old.items out.new.items }
{
    push_inside(out, from, first, last)?;
    out.push(b' ')?;
    push_to(out, to)
}

// Appends the AS before the valley and the first and the last one in it, or a front of that where it fails.
fn push_inside(out: &mut Vec<u8>, from: u32, first: u32, last: u32) -> Result<(), NoMemory>
    ensures ok { OnOk result (out.new.items ≡ out.old.items ++ inside_text from first last) }
    ensures grown { IsGrown out.old.items out.new.items }
{
    put_u64(out, u64::from(from))?;
    push_count(out, b" ", u64::from(first))?;
    push_count(out, b" ", u64::from(last))
}

// Appends the AS after the valley, or `here` for us.
fn push_to(out: &mut Vec<u8>, to: Option<u32>) -> Result<(), NoMemory>
    ensures ok { OnOk result (out.new.items ≡ out.old.items ++ to_text to) }
    ensures grown { IsGrown out.old.items out.new.items }
{
    match to {
        None => Ok(out.extend_from_slice(b"here")?),
        Some(asn) => put_u64(out, u64::from(asn)),
    }
}

/// Appends how many routes and paths have it, or a front of that where it fails.
pub(crate) fn push_having(out: &mut Vec<u8>, routes: u64, paths: u64) -> Result<(), NoMemory>
    ensures ok { OnOk result (out.new.items ≡ out.old.items ++ having_text routes paths) }
    ensures grown { IsGrown out.old.items out.new.items }
{
    push_count(out, b" routes ", routes)?;
    push_count(out, b" paths ", paths)
}
