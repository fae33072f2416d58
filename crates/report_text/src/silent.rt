//! The line that reports an AS that attests nothing and is asked about.
ghost use Rattle.std.specs.Prelude.{◌≡◌, ◌++◌, OnOk, OnErr};
ghost use Rattle.av_text.specs.Parts.{IsGrown};
ghost use Rattle.report_text.specs.Silent.{silent_text};

use crate::suspect::push_having;
use av_base::NoMemory;
use av_text::put_u64;

/// An AS that attests nothing, and how many routes ask about it.
#[derive(Clone, Copy, Debug, PartialEq, Eq)]
pub struct SilentAs {
    /// The AS.
    pub asn: u32,
    /// How many routes ask about it.
    pub routes: u64,
    /// How many paths do.
    pub paths: u64,
}

/// Appends `AS routes R paths P`, whole or not at all. A line has 19 to 67 bytes with its line feed, and what it takes is that room in
/// `out` alone.
pub fn put_silent(out: &mut Vec<u8>, silent: SilentAs) -> Result<(), NoMemory>
    ensures ok { OnOk result (out.new.items ≡ out.old.items ++ silent_text silent) }
    ensures err { OnErr result (out.new.items ≡ out.old.items) }
{
    let start = out.len();
    let done = push_silent(out, silent);
    if done.is_err() {
        out.truncate(start);
    }
    done
}

// Appends the line, or a front of it where that fails.
fn push_silent(out: &mut Vec<u8>, silent: SilentAs) -> Result<(), NoMemory>
    ensures ok { OnOk result (out.new.items ≡ out.old.items ++ silent_text silent) }
    ensures grown { IsGrown out.old.items out.new.items }
{
    put_u64(out, u64::from(silent.asn))?;
    push_having(out, silent.routes, silent.paths)?;
    out.push(b'\n')?;
    Ok(())
}
