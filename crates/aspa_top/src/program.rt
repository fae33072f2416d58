//! The top call: from the words to the status.
ghost use Rattle.std.specs.Prelude.{◌≡◌, ◌≢◌, ◌<◌, ◌≤◌, ◌⊎◌, ◌++◌, ℕ, List, [], Some, map};
ghost use Rattle.std.specs.String.{string_bytes};
ghost use Rattle.std.specs.Io.KnownBytes.{IsAtEnd};
ghost use Rattle.av_base.specs.Told.{Rose};
ghost use Rattle.connection_calls.specs.Faults.{BreaksByFault, NewAreUnbroken};
ghost use Rattle.report_text.specs.Reported.{AddsLines, IsWithinRise, unreachables_in};
ghost use Rattle.aspa_top.specs.Evaluated.{RunsSource, status_of};
ghost use Rattle.aspa_top.specs.Outside.{Keeps, outside};
ghost use Rattle.aspa_top.specs.Passed.{KeepsAll, told_unheld};
ghost use Rattle.aspa_top.specs.Program.{AreOwn, Completes, Demonstrates, IsDemo, IsEnding, IsRun, IsStatus, IsWhole, RanIfTold, StarvedIfTold};
ghost use Rattle.aspa_top.specs.World.{GoesOn, linked, names_of};

use crate::demo::run_demo;
use crate::evaluation::perform_lines;
use crate::outside::Outside;
use crate::script::{Piece, let_go, read_piece};
use crate::words::{Form, form_of};
use crate::working::Working;
use av_base::{Links, PIECE, ReadFault, Shelf, Sink, Source, Steps, Stop};
use std::alloc::Global;
use std::mem;
use std::sync::ledger::Ledger;

/// The most bytes that a script may have.
pub const SCRIPT_LIMIT: usize = 67_108_864;

/// Performs the script where the words are `run`, or the workload of a number where they are `demo N`, and answers the program's status.
/// The words stand without the program's name. The script is read in pieces, and each line is performed as it comes: before each read the
/// text of all lines whose LF was read is written.
///
/// | Status | Comes |
/// |---|---|
/// | 0 | the whole script was performed, all its text was written, and no line of it begins with `! `; or the workload's text was |
/// | 1 | the same, and some line does: a line of the script was refused |
/// | 2 | the words are of neither form; nothing is read, written, opened or connected |
/// | 3 | the script's source failed, and all text was written of the lines whose LF was read before; or the shelf failed at a line that opens or reads a file |
/// | 4 | the sink failed, and not all of the text was written |
/// | 5 | there was no memory |
/// | 6 | the script has more than [`SCRIPT_LIMIT`] bytes; the lines whose LF is among the first so many were performed |
///
/// At 3, 4 and 5 what was written is a front of that text; at 3 and 5 the text that is held is
/// written first, so far as the sink takes it. A failed call on a connection ends no run.
pub fn run<S: Source, F: Shelf, K: Links, W: Sink, L: Ledger>(
    alloc: Global,
    words: &Vec<String>,
    script: &mut S,
    shelf: &mut F,
    links: &mut K,
    out: &mut W,
    steps: &mut Steps<L>,
) -> u8
    // What is written and sent at each status, for every script that tells its bytes, every shelf that tells its files and all links
    // that tell their connections, and however all is read, received, written and sent.
    ensures ran { IsRun (map string_bytes words.now.items) → RanIfTold SCRIPT_LIMIT
        (S.left script.old) (S.left script.new) (F.files shelf.old)
        (linked (K.attempts links.old) (K.wire links.old)) (linked (K.attempts links.new) (K.wire links.new))
        (Rose (S.faults script.old) (S.faults script.new)) (Rose (F.faults shelf.old) (F.faults shelf.new))
        (W.written out.old) (W.written out.new) steps.old steps.new result }

    // What is written of a workload, which uses neither script nor shelf nor links nor the counter.
    ensures demonstrated { (seed : ℕ) → IsDemo (map string_bytes words.now.items) seed
        → Demonstrates seed (W.written out.old) (W.written out.new) result }
    ensures unused { (seed : ℕ) → IsDemo (map string_bytes words.now.items) seed
        → (script.new ≡ script.old) × (shelf.new ≡ shelf.old) × (links.new ≡ links.old)
        × (steps.new ≡ steps.old) }

    // When each status comes, beside what it says of the text.
    ensures known { IsStatus result }
    ensures other_words { result ≡ 2 → ¬ AreOwn (map string_bytes words.now.items) }
    ensures own_words { result ≢ 2 → AreOwn (map string_bytes words.now.items) }
    ensures untouched { result ≡ 2 → (script.new ≡ script.old) × (shelf.new ≡ shelf.old)
        × (links.new ≡ links.old) × (out.new ≡ out.old) × (steps.new ≡ steps.old) }
    ensures at_end { IsRun (map string_bytes words.now.items) → (result ≡ 0) ⊎ (result ≡ 1)
        → IsAtEnd (S.left script.new) }
    ensures input_cause { result ≡ 3 → Rose (S.faults script.old) (S.faults script.new)
        ⊎ Rose (F.faults shelf.old) (F.faults shelf.new) }
    ensures sink_cause { result ≡ 4 → Rose (W.faults out.old) (W.faults out.new) }

    // Where all lines that had come were performed, whole lines were written, where the sink tells what was written and whatever the
    // script, the shelf and the links tell.
    ensures whole_lines { IsRun (map string_bytes words.now.items) → IsWhole result ⊎ (result ≡ 3)
        → ¬ Rose (F.faults shelf.old) (F.faults shelf.new) → AddsLines
        (W.written out.old) (W.written out.new) (K.faults links.old) (K.faults links.new) }

    // Nothing but a fault, want of memory or the limit ends a run early.
    ensures complete { IsRun (map string_bytes words.now.items) → Completes SCRIPT_LIMIT (S.left script.old)
        (Rose (S.faults script.old) (S.faults script.new)) (Rose (F.faults shelf.old) (F.faults shelf.new))
        (Rose (W.faults out.old) (W.faults out.new)) result }

    // Where memory ran out and the sink didn't fail, what was written is the whole text of some first lines and of what the next one had
    // added, and these account for each attempt, each byte sent and each judgement counted.
    ensures starved { IsRun (map string_bytes words.now.items) → result ≡ 5
        → ¬ Rose (W.faults out.old) (W.faults out.new) → StarvedIfTold SCRIPT_LIMIT
        (S.left script.old) (F.files shelf.old)
        (linked (K.attempts links.old) (K.wire links.old)) (linked (K.attempts links.new) (K.wire links.new))
        (W.written out.old) (W.written out.new) steps.old steps.new }

    // For every script, shelf and links, where the sink tells what was written: no more lines of it say `unreachable` than the links
    // counted faults, unless that count stands at its last value.
    ensures few_unreachable { IsRun (map string_bytes words.now.items) → (before text : List ℕ)
        → W.written out.old ≡ Some before → W.written out.new ≡ Some (before ++ text)
        → IsWithinRise (unreachables_in text) (K.faults links.old) (K.faults links.new) }

    // Whatever is told: attempts were added behind those before, where they are told; the connections that these made are behind those
    // before, and each connection only went on, where these are told; and connections are told at the end where they were at
    // the start.
    ensures later { GoesOn (linked (K.attempts links.old) (K.wire links.old))
        (linked (K.attempts links.new) (K.wire links.new)) }

    // Whatever is told: where a connection broke, the links' count of faults rose, or stands at its last value.
    ensures unbroken { BreaksByFault (K.faults links.old) (K.faults links.new)
        (K.standings links.old) (K.standings links.new) }
    ensures new_unbroken { ¬ Rose (K.faults links.old) (K.faults links.new)
        → NewAreUnbroken (K.wire links.old) (K.wire links.new) }

    // Counts of faults don't fall, and the names of the shelf stay as they are.
    ensures script_faults { S.faults script.old ≤ S.faults script.new }
    ensures sink_faults { W.faults out.old ≤ W.faults out.new }
    ensures names { names_of (F.files shelf.new) ≡ names_of (F.files shelf.old) }
    ensures shelf_faults { F.faults shelf.old ≤ F.faults shelf.new }
{
    match form_of(words) {
        Form::Run => run_script(alloc, script, shelf, links, out, steps),
        Form::Demo(seed) => run_demo(alloc, seed, out),
        Form::Other => 2,
    }
}

// Reads the script piece by piece, and performs its lines as they come.
fn run_script<S: Source, F: Shelf, K: Links, W: Sink, L: Ledger>(
    alloc: Global,
    script: &mut S,
    shelf: &mut F,
    links: &mut K,
    out: &mut W,
    steps: &mut Steps<L>,
) -> u8
    ensures known { IsEnding result }
    ensures keeps { Keeps
        (outside F.Shelf K.Links W.Sink shelf.old links.old out.old [] steps.old)
        (outside F.Shelf K.Links W.Sink shelf.new links.new out.new [] steps.new) }
    ensures runs { RunsSource SCRIPT_LIMIT (S.left script.old) (S.left script.new)
        (Rose (S.faults script.old) (S.faults script.new))
        (outside F.Shelf K.Links W.Sink shelf.old links.old out.old [] steps.old)
        (outside F.Shelf K.Links W.Sink shelf.new links.new out.new [] steps.new) result }
    ensures script_faults { S.faults script.old ≤ S.faults script.new }
{
    let mut text = Vec::new(alloc);
    let mut outside = Outside {
        shelf,
        links,
        out,
        text: &mut text,
        steps,
    };
    run_pieces(alloc, script, &mut outside)
}

// The same, where all that is outside is passed as one.
fn run_pieces<S: Source, F: Shelf, K: Links, W: Sink, L: Ledger>(
    alloc: Global,
    script: &mut S,
    outside: &mut Outside<F, K, W, L>,
) -> u8
    requires unheld { outside.old.text.now.items ≡ [] }
    ensures known { IsEnding result }
    ensures keeps { KeepsAll F.Shelf K.Links W.Sink outside.old outside.new }
    ensures runs { RunsSource SCRIPT_LIMIT (S.left script.old) (S.left script.new)
        (Rose (S.faults script.old) (S.faults script.new))
        (told_unheld F.Shelf K.Links W.Sink outside.old)
        (told_unheld F.Shelf K.Links W.Sink outside.new) result }
    ensures script_faults { S.faults script.old ≤ S.faults script.new }
{
    let Ok(mut working) = Working::new(alloc) else {
        return 5;
    };
    let mut held = Vec::new(alloc);
    let mut room = SCRIPT_LIMIT;
    let mut buffer = [0u8; PIECE];
    'pieces: loop {
        match read_piece(script, &mut held, room, &mut buffer) {
            Ok(Piece::More(count, end)) => {
                let (lines, _) = held.as_slice().split_at(end);
                match perform_lines(alloc, working, lines, false, outside) {
                    Ok(next) => working = next,
                    Err(stop) => return status_of(stop),
                }
                let_go(&mut held, end);
                room -= count;
            }
            Ok(Piece::End) => {
                let lines = held.as_slice();
                match perform_lines(alloc, working, lines, true, outside) {
                    Ok(last) => return status_at_end(last),
                    Err(stop) => return status_of(stop),
                }
            }
            Ok(Piece::Over) => return leave(working, 6),
            Err(ReadFault::Source) => return leave(working, 3),
            Err(ReadFault::NoMemory) => return leave(working, 5),
        }
    }
}

// The status where something stopped the lines.
fn status_of(stop: Stop) -> u8
    ensures { result ≡ status_of stop }
{
    match stop {
        Stop::Shelf => 3,
        Stop::Sink => 4,
        Stop::NoMemory => 5,
    }
}

// The status where all lines were performed.
fn status_at_end(working: Working) -> u8
    ensures known { (result ≡ 0) ⊎ (result ≡ 1) }
    ensures clean { result ≡ 0 → working.progress.refused ≡ 0 }
    ensures refused { result ≡ 1 → 0 < working.progress.refused }
{
    let status = if working.progress.refused == 0 { 0 } else { 1 };
    leave(working, status)
}

// This status. The program ends, so nothing is gained by taking apart what it keeps.
fn leave(working: Working, status: u8) -> u8
    ensures { result ≡ status }
{
    mem::forget(working);
    status
}
