//! The line that says what came of serving routers.
ghost use Rattle.std.specs.Prelude.{◌≡◌, ◌++◌, OnOk, OnErr};
ghost use Rattle.av_text.specs.Parts.{IsGrown};
ghost use Rattle.report_text.specs.Served.{served_text};

use crate::count::push_count;
use av_base::NoMemory;

/// Appends `served C answers K`, whole or not at all: C routers were accepted, and K answers were sent to them whole, each with its End of
/// Data (RFC 8210, section 5.8). A line has 19 to 47 bytes with its line feed, and what it takes is that room in `out` alone.
pub fn put_served(out: &mut Vec<u8>, accepted: u32, answers: u64) -> Result<(), NoMemory>
    ensures ok { OnOk result (out.new.items ≡ out.old.items ++ served_text accepted answers) }
    ensures err { OnErr result (out.new.items ≡ out.old.items) }
{
    let start = out.len();
    let done = push_served(out, accepted, answers);
    if done.is_err() {
        out.truncate(start);
    }
    done
}

// Appends the line, or a front of it where that fails.
fn push_served(out: &mut Vec<u8>, accepted: u32, answers: u64) -> Result<(), NoMemory>
    ensures ok { OnOk result (out.new.items ≡ out.old.items ++ served_text accepted answers) }
    ensures grown { IsGrown out.old.items out.new.items }
{
    push_count(out, b"served ", u64::from(accepted))?;
    push_count(out, b" answers ", answers)?;
    out.push(b'\n')?;
    Ok(())
}
