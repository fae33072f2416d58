//! What lines of several kinds do to the `Working`: refuse, let an event happen, clear, gather and mark.
ghost use Rattle.std.specs.Prelude.{◌≡◌, ◌+◌, ◌^◌, ◌<◌, ◌≤◌, ◌++◌, IfOk, OnOk, OnErr};
ghost use Rattle.std.specs.FinMap as fin;
ghost use Rattle.report_text.specs.Places.{place_of};
ghost use Rattle.report_text.specs.Refusals.{refusal_text};
ghost use Rattle.analyser.specs.Touched.{TicksWithin};
ghost use Rattle.aspa_top.specs.Working.{Happened, Marked, refused_in};

use crate::working::Working;
use analyser::Event;
use av_base::{NoMemory, Steps};
use otc_check::Marks;
use report_text::{Cause, Place, put_refusal};
use std::alloc::Global;
use std::sync::ledger::Ledger;

/// Appends the report of a refused line to the text, and counts one refusal more; nothing else changes. The line was counted before.
pub(crate) fn refuse(
    mut working: Working,
    place: Place<'_>,
    cause: Cause,
    text: &mut Vec<u8>,
) -> Result<Working, NoMemory>
    requires room { working.progress.refused < 2 ^ 62 }
    ensures text { OnOk result (text.new.items
        ≡ text.old.items ++ refusal_text working.lines (place_of place.entry) cause) }
    ensures next { IfOk result (λ next. next ≡ refused_in working) }
    ensures err { OnErr result (text.new.items ≡ text.old.items) }
{
    put_refusal(text, working.lines, place, cause)?;
    working.progress.refused += 1;
    Ok(working)
}

/// Lets an event happen, and writes nothing.
pub(crate) fn happen<L: Ledger>(
    mut working: Working,
    event: Event,
    steps: &mut Steps<L>,
) -> Result<Working, NoMemory>
    ensures happened { IfOk result (Happened working event) }
    ensures ticks { TicksWithin working.progress.analyser event steps.old steps.new }
{
    working.progress.analyser.apply(event, steps)?;
    Ok(working)
}

/// Lets all routes go, with what they said of Only-to-Customer, and writes nothing.
pub(crate) fn clear<L: Ledger>(
    alloc: Global,
    mut working: Working,
    steps: &mut Steps<L>,
) -> Result<Working, NoMemory>
    ensures cleared { IfOk result (λ next. next ≡ record working {
      progress = record working.progress {
        analyser = record working.progress.analyser { routes = fin.empty };
        marks = fin.empty;
      };
    }) }
    ensures ticks { steps.new ≤ steps.old }
{
    working.progress.analyser.clear(steps)?;
    working.progress.marks = Marks::new(alloc);
    Ok(working)
}

/// Gathers what changed since verdicts were marked, so that it can be listed in the time of that.
pub(crate) fn gather(mut working: Working) -> Result<Working, NoMemory>
    ensures { IfOk result (λ next. next ≡ working) }
{
    working.progress.analyser.gather()?;
    Ok(working)
}

/// Marks all verdicts as they stand. It takes no memory.
pub(crate) fn mark(mut working: Working) -> Working
    ensures { Marked working result }
{
    working.progress.analyser.mark_all();
    working
}
