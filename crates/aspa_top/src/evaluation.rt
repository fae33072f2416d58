//! Lines performed one after another.
ghost use Rattle.std.specs.Prelude.{◌≡◌, ◌+◌, ◌^◌, ◌<◌, ◌≤◌, [], length, IfOk};
ghost use Rattle.std.specs.Io.KnownBytes.{append_known};
ghost use Rattle.av_base.specs.Told.{Grows, Rose};
ghost use Rattle.av_text.specs.Lines.{lines_in};
ghost use Rattle.aspa_top.specs.Evaluated.{Performed, Poured};
ghost use Rattle.aspa_top.specs.Passed.{KeepsAll, told_unheld};
ghost use Rattle.aspa_top.specs.Standing.{IsReady};

use crate::line::perform_line;
use crate::outside::Outside;
use crate::working::Working;
use av_base::{Links, Shelf, Sink, Stop, pour, pour_piece};
use av_text::next_line;
use std::alloc::Global;
use std::sync::ledger::Ledger;

/// Performs lines, the last of a script or others, and writes all their text: it is held, and written in pieces, and all of it before a
/// line waits for others. Where the shelf fails, or memory runs out, the text before that is written first; there the sink's own faults count for
/// nothing where memory ran out.
pub(crate) fn perform_lines<F: Shelf, K: Links, W: Sink, L: Ledger>(
    alloc: Global,
    mut working: Working,
    lines: &[u8],
    whole: bool,
    outside: &mut Outside<F, K, W, L>,
) -> Result<Working, Stop>
    requires room { working.lines + length lines.now < 2 ^ 31 }
    requires unheld { outside.old.text.now.items ≡ [] }
    requires ready { IsReady (told_unheld F.Shelf K.Links W.Sink outside.old) working }
    ensures keeps { KeepsAll F.Shelf K.Links W.Sink outside.old outside.new }
    ensures performed { Performed working (lines_in whole lines.now)
        (told_unheld F.Shelf K.Links W.Sink outside.old)
        (told_unheld F.Shelf K.Links W.Sink outside.new) result }
    ensures few { IfOk result (λ next. next.lines ≤ working.lines + length lines.now) }
    ensures poured { IfOk result (λ next. outside.new.text.now.items ≡ []) }
{
    let mut left = lines;
    while let Some((line, more)) = next_line(left, whole) {
        left = more;
        // Of a line without a byte there is nothing to read.
        if line.is_empty() {
            working.lines += 1;
            continue;
        }
        pour_piece(outside.out, outside.text)?;
        match perform_line(alloc, working, line, outside) {
            Ok(next) => working = next,
            Err(stop) => return Err(write_held(stop, outside.out, outside.text)),
        }
    }
    pour(outside.out, outside.text)?;
    Ok(working)
}

// Writes what is held where a line ended early, unless the sink failed in it, and answers what stops the lines.
fn write_held<W: Sink>(stop: Stop, out: &mut W, text: &mut Vec<u8>) -> Stop
    ensures same { append_known (W.written out.new) text.new.items
        ≡ append_known (W.written out.old) text.old.items }
    ensures grows { Grows (W.written out.old) (W.written out.new) }
    ensures faults { W.faults out.old ≤ W.faults out.new }
    ensures stops { Poured stop result text.old.items text.new.items
        (Rose (W.faults out.old) (W.faults out.new)) }
{
    match stop {
        Stop::Sink => Stop::Sink,
        Stop::Shelf => match pour(out, text) {
            Ok(()) => Stop::Shelf,
            Err(_) => Stop::Sink,
        },
        Stop::NoMemory => match pour(out, text) {
            Ok(()) => Stop::NoMemory,
            // That the sink takes no more is no reason any more.
            Err(_) => Stop::NoMemory,
        },
    }
}
