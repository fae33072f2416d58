//! The line that reports a route's verdict.
ghost use Rattle.std.specs.Prelude.{◌≡◌, ◌++◌, OnOk, OnErr};
ghost use Rattle.av_text.specs.Parts.{IsGrown};
ghost use Rattle.report_text.specs.Rows.{row_text};

use crate::key::push_key;
use av_base::NoMemory;
use av_text::put_verdict;
use path_model::{Key, Verdict};

/// Appends `ADDRESS AS PREFIX VERDICT`, the peer's address first, whole or not at all. Where the route has a path identifier, ` path ID`
/// stands behind PREFIX. A line has 26 to 119 bytes with its line feed, and what it takes is that room in `out` alone.
pub fn put_row(out: &mut Vec<u8>, key: &Key, verdict: Verdict) -> Result<(), NoMemory>
    ensures ok { OnOk result (out.new.items ≡ out.old.items ++ row_text key.now verdict) }
    ensures err { OnErr result (out.new.items ≡ out.old.items) }
{
    let start = out.len();
    let done = push_row(out, key, verdict);
    if done.is_err() {
        out.truncate(start);
    }
    done
}

// Appends the line, or a front of it where that fails.
fn push_row(out: &mut Vec<u8>, key: &Key, verdict: Verdict) -> Result<(), NoMemory>
    ensures ok { OnOk result (out.new.items ≡ out.old.items ++ row_text key.now verdict) }
    ensures grown { IsGrown out.old.items out.new.items }
{
    push_key(out, key)?;
    out.push(b' ')?;
    put_verdict(out, verdict)?;
    out.push(b'\n')?;
    Ok(())
}
