//! `aspa`, `aspa64`, `validated` and `slurm`: files that change the table.
ghost use Rattle.std.specs.Prelude.{◌≡◌, ◌^◌, ◌<◌, Ok, IfOk, OnErr};
ghost use Rattle.analyser.specs.declared.event.Event.TheVariants.{Table as TableEvent};
ghost use Rattle.analyser.specs.Touched.{TicksWithin};
ghost use Rattle.aspa_top.specs.declared.task.Task.TheVariants.{Load};
ghost use Rattle.aspa_top.specs.Passed.{KeepsAll, told};
ghost use Rattle.aspa_top.specs.Performing.{Did};
ghost use Rattle.aspa_top.specs.Standing.{IsBegun};
ghost use Rattle.aspa_top.specs.Working.{Acted, ActedWithin, Amended, Loaded, Names};

use crate::effects::{happen, refuse};
use crate::files::{Amendment, FileKind, Made, Outcome, load_file};
use crate::outside::Outside;
use crate::working::Working;
use analyser::Event;
use av_base::{Links, NoMemory, Shelf, Sink, Steps, Stop};
use path_model::Name;
use report_text::{Cause, Place};
use script_lines::Word;
use std::alloc::Global;
use std::sync::ledger::Ledger;

/// Loads the file of this name: a good one changes what attests, and by another one the line is refused.
#[inline(never)]
pub(crate) fn load<F: Shelf, K: Links, W: Sink, L: Ledger>(
    alloc: Global,
    working: Working,
    kind: FileKind,
    file: &Word,
    outside: &mut Outside<F, K, W, L>,
) -> Result<Working, Stop>
    requires begun { IsBegun (told F.Shelf K.Links W.Sink outside.old) working }
    ensures keeps { KeepsAll F.Shelf K.Links W.Sink outside.old outside.new }
    ensures did { Did working (Ok (Load kind file.now))
        (told F.Shelf K.Links W.Sink outside.old)
        (told F.Shelf K.Links W.Sink outside.new) result }
{
    if working.is_taken(&kind) {
        return Ok(refuse(working, Place::Line, Cause::NameTaken, outside.text)?);
    }
    // it comes with what stands in a name
    let _name = kind.unit_name();
    let outcome = load_file(alloc, &kind, file.text(), outside.shelf)?;
    Ok(act_on(working, kind, outcome, outside.text, outside.steps)?)
}

// Makes the change of a good file, and refuses the line by another one.
fn act_on<L: Ledger>(
    working: Working,
    kind: FileKind,
    outcome: Outcome,
    text: &mut Vec<u8>,
    steps: &mut Steps<L>,
) -> Result<Working, NoMemory>
    requires room { working.progress.refused < 2 ^ 62 }
    ensures acted { IfOk result (Acted working kind outcome text.old.items text.new.items) }
    ensures ticks { ActedWithin working outcome steps.old steps.new }
    ensures err { OnErr result (text.new.items ≡ text.old.items) }
{
    match outcome {
        Outcome::NoFile => refuse(working, Place::Line, Cause::NoFile, text),
        Outcome::Long => refuse(working, Place::Line, Cause::FileLong, text),
        Outcome::Flawed(flaw) => {
            let place = Place::Unit {
                name: kind.unit_name(),
                unit: flaw.unit,
            };
            refuse(working, place, flaw.cause, text)
        }
        Outcome::Good(made) => hold(working, kind, made, steps),
    }
}

// Makes the change of a good file, and takes its name.
fn hold<L: Ledger>(
    working: Working,
    kind: FileKind,
    made: Made,
    steps: &mut Steps<L>,
) -> Result<Working, NoMemory>
    ensures held { IfOk result (Loaded working kind made) }
    ensures ticks { TicksWithin working.progress.analyser (TableEvent made.table) steps.old steps.new }
{
    let Made { table, amends } = made;
    let changed = happen(working, Event::Table(table), steps)?;
    let amended = amend(changed, amends)?;
    match kind {
        FileKind::Source(name, _) => {
            let named = name_source(amended, name)?;
            Ok(named)
        }
        FileKind::Slurm => Ok(amended),
    }
}

// Puts what a file says of payloads in place of what was said before.
fn amend(mut working: Working, amends: Amendment) -> Result<Working, NoMemory>
    ensures { IfOk result (Amended working amends) }
{
    match amends {
        Amendment::Source(name, payloads) => {
            working.progress.origins.replace(name, payloads)?;
            Ok(working)
        }
        Amendment::Slurm(filters, assertions) => {
            working.progress.origins.slurm(filters, assertions);
            Ok(working)
        }
    }
}

// Notes that a source has the name.
fn name_source(mut working: Working, name: Name) -> Result<Working, NoMemory>
    ensures { IfOk result (Names working name) }
{
    working.sources.insert(name)?;
    Ok(working)
}
