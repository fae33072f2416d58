//! The line that reports a route whose verdict changed, and the one that says how many there are.
ghost use Rattle.std.specs.Prelude.{◌≡◌, ◌++◌, OnOk, OnErr};
ghost use Rattle.av_text.specs.Parts.{IsGrown};
ghost use Rattle.report_text.specs.Change.{mark_text, marks_text, change_text, changed_text};

use crate::count::push_count;
use crate::key::push_key;
use av_base::NoMemory;
use av_text::put_verdict;
use path_model::{Key, Verdict};

/// Appends `ADDRESS AS PREFIX BEFORE AFTER`, the peer's address first, whole or not at all. Where the route has a path identifier,
/// ` path ID` stands behind PREFIX, and where there was or is no route, the word is `none`. A line has 30 to 127 bytes with its line feed,
/// and what it takes is that room in `out` alone.
pub fn put_change(
    out: &mut Vec<u8>,
    key: &Key,
    before: Option<Verdict>,
    after: Option<Verdict>,
) -> Result<(), NoMemory>
    ensures ok { OnOk result (out.new.items ≡ out.old.items ++ change_text key.now before after) }
    ensures err { OnErr result (out.new.items ≡ out.old.items) }
{
    let start = out.len();
    let done = push_change(out, key, before, after);
    if done.is_err() {
        out.truncate(start);
    }
    done
}

// Appends the line, or a front of it where that fails.
fn push_change(
    out: &mut Vec<u8>,
    key: &Key,
    before: Option<Verdict>,
    after: Option<Verdict>,
) -> Result<(), NoMemory>
    ensures ok { OnOk result (out.new.items ≡ out.old.items ++ change_text key.now before after) }
    ensures grown { IsGrown out.old.items out.new.items }
{
    push_key(out, key)?;
    out.push(b' ')?;
    push_marks(out, before, after)?;
    out.push(b'\n')?;
    Ok(())
}

// Appends the words for both verdicts, or a front of them where that fails.
fn push_marks(
    out: &mut Vec<u8>,
    before: Option<Verdict>,
    after: Option<Verdict>,
) -> Result<(), NoMemory>
    ensures ok { OnOk result (out.new.items ≡ out.old.items ++ marks_text before after) }
    ensures grown { IsGrown out.old.items out.new.items }
{
    put_mark(out, before)?;
    out.push(b' ')?;
    put_mark(out, after)
}

// Appends the word for a verdict, or `none` for none.
fn put_mark(out: &mut Vec<u8>, verdict: Option<Verdict>) -> Result<(), NoMemory>
    ensures ok { OnOk result (out.new.items ≡ out.old.items ++ mark_text verdict) }
    ensures err { OnErr result (out.new.items ≡ out.old.items) }
{
    match verdict {
        None => Ok(out.extend_from_slice(b"none")?),
        Some(verdict) => put_verdict(out, verdict),
    }
}

/// Appends `changed K`, whole or not at all. A line has 10 to 29 bytes with its line feed, and what it takes is that room in `out` alone.
pub fn put_changed(out: &mut Vec<u8>, changes: u64) -> Result<(), NoMemory>
    ensures ok { OnOk result (out.new.items ≡ out.old.items ++ changed_text changes) }
    ensures err { OnErr result (out.new.items ≡ out.old.items) }
{
    let start = out.len();
    let done = push_changed(out, changes);
    if done.is_err() {
        out.truncate(start);
    }
    done
}

// Appends the line, or a front of it where that fails.
fn push_changed(out: &mut Vec<u8>, changes: u64) -> Result<(), NoMemory>
    ensures ok { OnOk result (out.new.items ≡ out.old.items ++ changed_text changes) }
    ensures grown { IsGrown out.old.items out.new.items }
{
    push_count(out, b"changed ", changes)?;
    out.push(b'\n')?;
    Ok(())
}
