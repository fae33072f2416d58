//! The line that says how our own routes stand.
ghost use Rattle.std.specs.Prelude.{◌≡◌, ◌++◌, OnOk, OnErr};
ghost use Rattle.av_text.specs.Parts.{IsGrown};
ghost use Rattle.report_text.specs.Own.{own_text};

use av_base::NoMemory;
use av_text::put_verdict;
use path_model::Verdict;

/// Appends `own VERDICT`, whole or not at all. A line has 10 to 12 bytes with its line feed, and what it takes is that room in `out` alone.
pub fn put_own(out: &mut Vec<u8>, verdict: Verdict) -> Result<(), NoMemory>
    ensures ok { OnOk result (out.new.items ≡ out.old.items ++ own_text verdict) }
    ensures err { OnErr result (out.new.items ≡ out.old.items) }
{
    let start = out.len();
    let done = push_own(out, verdict);
    if done.is_err() {
        out.truncate(start);
    }
    done
}

// Appends the line, or a front of it where that fails.
fn push_own(out: &mut Vec<u8>, verdict: Verdict) -> Result<(), NoMemory>
    ensures ok { OnOk result (out.new.items ≡ out.old.items ++ own_text verdict) }
    ensures grown { IsGrown out.old.items out.new.items }
{
    out.extend_from_slice(b"own ")?;
    put_verdict(out, verdict)?;
    out.push(b'\n')?;
    Ok(())
}
