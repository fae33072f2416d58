//! The lines that say where the row of a customer comes from.
ghost use Rattle.std.specs.Prelude.{◌≡◌, ◌++◌, OnOk, OnErr};
ghost use Rattle.std.specs.Option.{option_copied};
ghost use Rattle.av_text.specs.Parts.{IsGrown};
ghost use Rattle.report_text.specs.Assertions.{named};
ghost use Rattle.report_text.specs.Attested.{asserted_line, current_line, ended_text, filtered_line, part_text, source_line, until_text, with_lf};
ghost use Rattle.report_text.specs.Details.{ases_text};

use crate::count::push_count;
use av_base::NoMemory;
use path_model::{AsList, Name};

/// The parts of a table that are no named source.
#[derive(Clone, Copy, Debug, PartialEq, Eq)]
pub enum LocalPart {
    /// What a SLURM file has.
    Slurm,
    /// What is said by hand.
    Hand,
}

/// Appends `source NAME P..`, whole or not at all, with `until MOMENT` behind the name where the attestation ends, and ` ended` at the
/// line's end where it isn't alive. Of no providers P is 0. What it takes is the room of the line in `out` alone: 97 bytes at most, and 11
/// more for each provider.
pub fn put_source(
    out: &mut Vec<u8>,
    name: &Name,
    until: Option<u32>,
    providers: &[u32],
    ended: bool,
) -> Result<(), NoMemory>
    ensures ok { OnOk result (out.new.items
        ≡ out.old.items ++ with_lf (source_line name.now until providers.now ended)) }
    ensures err { OnErr result (out.new.items ≡ out.old.items) }
{
    let start = out.len();
    let done = push_source(out, name, until, providers, ended);
    if done.is_err() {
        out.truncate(start);
    }
    done
}

// Appends the line, or a front of it where that fails.
fn push_source(
    out: &mut Vec<u8>,
    name: &Name,
    until: Option<u32>,
    providers: &[u32],
    ended: bool,
) -> Result<(), NoMemory>
    ensures ok { OnOk result (out.new.items
        ≡ out.old.items ++ with_lf (source_line name.now until providers.now ended)) }
    ensures grown { IsGrown out.old.items out.new.items }
{
    out.extend_from_slice(b"source ")?;
    out.extend_from_slice(name.text().as_bytes())?;
    push_until(out, until)?;
    push_named(out, providers)?;
    push_ended(out, ended)?;
    out.push(b'\n')?;
    Ok(())
}

// Appends until when an attestation is alive, or a front of that where it fails.
fn push_until(out: &mut Vec<u8>, until: Option<u32>) -> Result<(), NoMemory>
    ensures ok { OnOk result (out.new.items ≡ out.old.items ++ until_text until) }
    ensures grown { IsGrown out.old.items out.new.items }
{
    match until {
        None => Ok(()),
        Some(moment) => push_count(out, b" until ", u64::from(moment)),
    }
}

// Appends that an attestation isn't alive, where it isn't.
fn push_ended(out: &mut Vec<u8>, ended: bool) -> Result<(), NoMemory>
    ensures ok { OnOk result (out.new.items ≡ out.old.items ++ ended_text ended) }
    ensures grown { IsGrown out.old.items out.new.items }
{
    if !ended {
        return Ok(());
    }
    Ok(out.extend_from_slice(b" ended")?)
}

/// Appends `slurm P..` or `hand P..`, whole or not at all; of no providers P is 0. What it takes is the room of the line in `out` alone: 8
/// bytes at most, and 11 more for each provider.
pub fn put_asserted(out: &mut Vec<u8>, part: LocalPart, providers: &[u32]) -> Result<(), NoMemory>
    ensures ok { OnOk result
        (out.new.items ≡ out.old.items ++ with_lf (asserted_line part providers.now)) }
    ensures err { OnErr result (out.new.items ≡ out.old.items) }
{
    let start = out.len();
    let done = push_worded(out, word_of(part), providers);
    if done.is_err() {
        out.truncate(start);
    }
    done
}

/// Appends `filtered slurm` or `filtered hand`, whole or not at all.
pub fn put_filtered(out: &mut Vec<u8>, part: LocalPart) -> Result<(), NoMemory>
    ensures ok { OnOk result (out.new.items ≡ out.old.items ++ with_lf (filtered_line part)) }
    ensures err { OnErr result (out.new.items ≡ out.old.items) }
{
    let line: &[u8] = match part {
        LocalPart::Slurm => b"filtered slurm\n",
        LocalPart::Hand => b"filtered hand\n",
    };
    Ok(out.extend_from_slice(line)?)
}

/// Appends `row P..`, whole or not at all: `row 0` of an empty row, and `row none` where there is none. What it takes is the room of the
/// line in `out` alone: 9 bytes at most, or 4 and 11 more for each provider.
pub fn put_current_row(out: &mut Vec<u8>, row: Option<&AsList>) -> Result<(), NoMemory>
    ensures ok { OnOk result (out.new.items
        ≡ out.old.items ++ with_lf (current_line (option_copied row.entry))) }
    ensures err { OnErr result (out.new.items ≡ out.old.items) }
{
    let Some(row) = row else {
        return Ok(out.extend_from_slice(b"row none\n")?);
    };
    let start = out.len();
    let done = push_worded(out, b"row", row.as_slice());
    if done.is_err() {
        out.truncate(start);
    }
    done
}

// Appends a word, the providers and a line feed, or a front of that where it fails.
fn push_worded(out: &mut Vec<u8>, word: &[u8], providers: &[u32]) -> Result<(), NoMemory>
    ensures ok { OnOk result (out.new.items
        ≡ out.old.items ++ with_lf (word.now ++ ases_text (named providers.now))) }
    ensures grown { IsGrown out.old.items out.new.items }
{
    out.extend_from_slice(word)?;
    push_named(out, providers)?;
    out.push(b'\n')?;
    Ok(())
}

// Appends the providers, or 0 where there are none, each behind a space, or a front of that where it fails.
fn push_named(out: &mut Vec<u8>, providers: &[u32]) -> Result<(), NoMemory>
    ensures ok { OnOk result (out.new.items ≡ out.old.items ++ ases_text (named providers.now)) }
    ensures grown { IsGrown out.old.items out.new.items }
{
    if providers.is_empty() {
        return push_count(out, b" ", 0);
    }
    for provider in providers {
        push_count(out, b" ", u64::from(*provider))?;
    }
    Ok(())
}

// The word for a local part.
fn word_of(part: LocalPart) -> &'static [u8]
    ensures { result.now ≡ part_text part }
{
    match part {
        LocalPart::Slurm => b"slurm",
        LocalPart::Hand => b"hand",
    }
}
