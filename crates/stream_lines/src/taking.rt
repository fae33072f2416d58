//! The units that a line takes from a dump.
ghost use Rattle.std.specs.Prelude.{◌≡◌, ◌<◌, ◌≤◌, ◌≢◌, ◌+◌, ◌++◌, ◌^◌, ℕ, List, OnOk, OnErr, IsErrOf, length};
ghost use Rattle.std.specs.Io.KnownBytes.{append_known};
ghost use Rattle.std.specs.declared.option.Option.{Option};
ghost use Rattle.av_base.specs.Told.{Grows, HasCause, Rose};
ghost use Rattle.av_text.specs.Spellings.{IsInLine};
ghost use Rattle.report_text.specs.Refusals.{of_unit, refusal_text};
ghost use Rattle.report_text.specs.Reported.{AddsQuiet};
ghost use Rattle.stream_lines.specs.Frames.{Leaves, names_of};
ghost use Rattle.stream_lines.specs.Holding.{LetsGo};
ghost use Rattle.stream_lines.specs.Taking.{GrewBy, TicksWithinUnits, TookSome, TookUnits, asking_of};
ghost use Rattle.stream_lines.specs.TakingSteps.{TicksWithinUnit, TookUnit};

use crate::dump::OpenDump;
use crate::effect::take_effect;
use crate::next::Next;
use analyser::Progress;
use av_base::{Fault, NoMemory, ReadFault, Shelf, Sink, Steps, Stop, pour, pour_piece};
use report_text::{Cause, Place, put_refusal};
use std::alloc::Global;
use std::sync::ledger::Ledger;

/// The line that takes: its number, the dump's name, and the most units that it takes.
#[derive(Clone, Copy, Debug)]
pub struct Asked<'a> {
    /// The number of the line, from 1.
    pub line: u64,
    /// The dump's name.
    pub name: &'a str,
    /// The most units that are taken.
    pub count: u32,
    /// The moment, in seconds since 1970-01-01 00:00 UTC: the line stops before the first record from it on. None where only the count
    /// bounds it.
    pub until: Option<u32>,
}

/// Writes what is held once that is a whole piece, and all of it before a read that may wait.
pub(crate) fn flush_before<W: Sink>(
    dump: &OpenDump,
    out: &mut W,
    text: &mut Vec<u8>,
) -> Result<(), Fault>
    ensures same { append_known (W.written out.new) text.new.items
        ≡ append_known (W.written out.old) text.old.items }
    ensures grows { Grows (W.written out.old) (W.written out.new) }
    ensures err { OnErr result (0 < length text.new.items) }
    ensures cause { HasCause (W.faults out.old) (W.faults out.new) result }
{
    if dump.is_ready() {
        pour_piece(out, text)
    } else {
        pour(out, text)
    }
}

/// Takes what comes next in a dump that isn't over.
pub(crate) fn take_unit<F: Shelf, L: Ledger>(
    alloc: Global,
    dump: &mut OpenDump,
    asked: Asked<'_>,
    progress: &mut Progress,
    shelf: &mut F,
    text: &mut Vec<u8>,
    steps: &mut Steps<L>,
) -> Result<(), ReadFault>
    requires given { dump.old.file < F.opened shelf.old }
    requires few_taken { dump.old.taken < 2 ^ 63 }
    requires few_passed { progress.old.passed < 2 ^ 63 }
    requires few_refused { progress.old.refused < 2 ^ 63 }
    ensures took { OnOk result (TookUnit (asking_of asked.entry) dump.old dump.new progress.old
        (F.files shelf.old) (F.files shelf.new) text.old.items text.new.items progress.new) }
    ensures err { OnErr result (text.new.items ≡ text.old.items) }
    ensures file { dump.new.file ≡ dump.old.file }
    ensures few { OnOk result (GrewBy 1 dump.old dump.new progress.old progress.new) }
    ensures lets_go { OnOk result (LetsGo dump.old dump.new (F.files shelf.new)) }
    ensures ticks { TicksWithinUnit (asking_of asked.entry) dump.old progress.old
        (F.files shelf.old) steps.old steps.new }
    ensures others { Leaves (λ other. other ≢ dump.old.file)
        (F.files shelf.old) (F.files shelf.new) }
    ensures opened { F.opened shelf.new ≡ F.opened shelf.old }
    ensures cause { IsErrOf result ReadFault.Source
        → Rose (F.faults shelf.old) (F.faults shelf.new) }
    ensures faults { F.faults shelf.old ≤ F.faults shelf.new }
    ensures reports { IsInLine asked.entry.name.now → (written : Option (List ℕ))
        → AddsQuiet (append_known written text.old.items) (append_known written text.new.items) }
{
    match dump.next(alloc, shelf)? {
        Next::Unit(Ok(effect)) => {
            take_effect(alloc, effect, progress, steps)?;
            dump.pass();
            Ok(())
        }
        Next::Unit(Err(cause)) => {
            report(text, asked, dump.taken(), cause)?;
            dump.pass();
            refused_once(progress);
            Ok(())
        }
        Next::Broken(cause) => {
            report(text, asked, dump.taken(), cause)?;
            dump.end(alloc, shelf);
            refused_once(progress);
            Ok(())
        }
        Next::End => {
            dump.end(alloc, shelf);
            Ok(())
        }
    }
}

// One refusal is counted.
fn refused_once(progress: &mut Progress)
    requires { progress.old.refused < 2 ^ 63 }
    ensures { progress.new ≡ record progress.old { refused = progress.old.refused + 1 } }
{
    progress.refused += 1;
}

// Reports the unit behind those that were taken.
fn report(text: &mut Vec<u8>, asked: Asked<'_>, taken: u64, cause: Cause) -> Result<(), NoMemory>
    requires few { taken < 2 ^ 63 }
    ensures ok { OnOk result (text.new.items
        ≡ text.old.items
        ++ refusal_text asked.entry.line (of_unit asked.entry.name.now (taken + 1)) cause) }
    ensures err { OnErr result (text.new.items ≡ text.old.items) }
{
    let place = Place::Unit {
        name: asked.name,
        unit: taken + 1,
    };
    put_refusal(text, asked.line, place, cause)
}
