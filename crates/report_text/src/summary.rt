//! The line that sums up a run.
ghost use Rattle.std.specs.Prelude.{◌≡◌, ◌++◌, OnOk, OnErr};
ghost use Rattle.av_text.specs.Parts.{IsGrown};
ghost use Rattle.report_text.specs.Summary.{verdicts_part, sources_part, summary_text};

use crate::count::push_count;
use av_base::NoMemory;

/// How many there are of each, at one moment of a run.
#[derive(Clone, Copy, Debug)]
pub struct Summary {
    /// The routes held.
    pub routes: u64,
    /// The routes whose path is valid.
    pub valid: u64,
    /// The routes of whose path nothing can be told.
    pub unknown: u64,
    /// The routes whose path is invalid.
    pub invalid: u64,
    /// The customers that attest, by the current table.
    pub customers: u64,
    /// The units of dumps that were passed over: they say nothing of routes, or what they say isn't read.
    pub passed: u64,
    /// The lines that were written to report a refusal.
    pub refused: u64,
}

/// Appends `summary routes R valid V unknown U invalid I customers C passed P refused Q`, whole or not at all. A line has 76 to 209 bytes
/// with its line feed, and what it takes is that room in `out` alone.
pub fn put_summary(out: &mut Vec<u8>, summary: Summary) -> Result<(), NoMemory>
    ensures ok { OnOk result (out.new.items ≡ out.old.items ++ summary_text summary) }
    ensures err { OnErr result (out.new.items ≡ out.old.items) }
{
    let start = out.len();
    let done = push_summary(out, summary);
    if done.is_err() {
        out.truncate(start);
    }
    done
}

// Appends the line, or a front of it where that fails.
fn push_summary(out: &mut Vec<u8>, summary: Summary) -> Result<(), NoMemory>
    ensures ok { OnOk result (out.new.items ≡ out.old.items ++ summary_text summary) }
    ensures grown { IsGrown out.old.items out.new.items }
{
    push_count(out, b"summary routes ", summary.routes)?;
    push_verdicts(out, summary)?;
    push_sources(out, summary)?;
    out.push(b'\n')?;
    Ok(())
}

// Appends how many routes there are of each verdict, or a front of that where it fails.
fn push_verdicts(out: &mut Vec<u8>, summary: Summary) -> Result<(), NoMemory>
    ensures ok { OnOk result (out.new.items ≡ out.old.items ++ verdicts_part summary) }
    ensures grown { IsGrown out.old.items out.new.items }
{
    push_count(out, b" valid ", summary.valid)?;
    push_count(out, b" unknown ", summary.unknown)?;
    push_count(out, b" invalid ", summary.invalid)
}

// Appends how many customers attest, and how much was passed over or refused, or a front of that where it fails.
fn push_sources(out: &mut Vec<u8>, summary: Summary) -> Result<(), NoMemory>
    ensures ok { OnOk result (out.new.items ≡ out.old.items ++ sources_part summary) }
    ensures grown { IsGrown out.old.items out.new.items }
{
    push_count(out, b" customers ", summary.customers)?;
    push_count(out, b" passed ", summary.passed)?;
    push_count(out, b" refused ", summary.refused)
}
