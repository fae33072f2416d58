//! The program `aspaview`: it gives [`aspa_top::run`] the real standard input and output and the system's files and connections, and ends
//! with its answer.
//!
//! `main` makes the objects of `system_objects`, and `perform` runs over them with some of `run`'s clauses. Nothing is written to standard
//! error.
#![tactic(auto)]

ghost use Rattle.std.specs.Prelude.{◌≡◌, ◌≢◌, ◌≤◌, ◌⊎◌, ℕ, map};
ghost use Rattle.std.specs.String.{string_bytes};
ghost use Rattle.std.specs.Io.KnownBytes.{IsAtEnd};
ghost use Rattle.av_base.specs.Told.{Rose};
ghost use Rattle.report_text.specs.Reported.{AddsLines};
ghost use Rattle.aspa_top.specs.Program.{AreOwn, Completes, Demonstrates, IsDemo, IsRun, IsStatus, IsWhole, RanIfTold};
ghost use Rattle.aspa_top.specs.World.{linked, names_of};

use aspa_top::{SCRIPT_LIMIT, run};
use av_base::{Links, Shelf, Sink, Source, Steps};
use std::alloc::{AllocError, Global};
use std::env;
use std::fs::File;
use std::io::{self, ErrorKind};
use std::marker::Brand;
use std::process::ExitCode;
use std::sync::ledger::{Blank, Ledger};
use system_objects::{FileShelf, InputSource, OutputSink, TcpLinks};

// The status of other words than the program's own.
const OTHER_WORDS: u8 = 2;

// A folder that is always there.
const FOLDER: &str = "/";

// The status where there is no memory.
const NO_MEMORY: u8 = 5;

fn main(rt: HostRuntime) -> ExitCode {
    // Where a standard stream is closed, its number goes to one of these folders, which can be neither read nor written, and is no file's
    // and no connection's until the end.
    let _first = File::open(&rt, FOLDER);
    let _second = File::open(&rt, FOLDER);
    let _third = File::open(&rt, FOLDER);
    let status = match env::args(&rt) {
        Ok(arguments) => match arguments.skip(1).collect(rt.alloc()) {
            Ok(words) => perform::<_, _, _, _, Brand>(
                rt.alloc(),
                &words,
                &mut InputSource::new(rt.reader(), &rt),
                &mut FileShelf::new(rt.alloc(), &rt),
                &mut TcpLinks::new(rt.alloc(), &rt),
                &mut OutputSink::new(io::writer(&rt), &rt),
                Blank::new(1),
            ),
            Err(AllocError) => NO_MEMORY,
        },
        Err(error) if error.kind() == ErrorKind::OutOfMemory => NO_MEMORY,
        // Words that are no text are no words of the program's.
        Err(_) => OTHER_WORDS,
    };
    ExitCode::from(status)
}

// Runs with a counter of steps that costs nothing. The clauses are some of those of `run`, whose counter is at 0 before it.
fn perform<S: Source, F: Shelf, K: Links, W: Sink, L: Ledger>(
    alloc: Global,
    words: &Vec<String>,
    script: &mut S,
    shelf: &mut F,
    links: &mut K,
    out: &mut W,
    blank: Blank,
) -> u8
    requires name { blank.name ≡ L.name }
    requires parts { blank.parts ≡ L.parts }
    requires one { L.parts ≡ 1 }
    ensures ran { IsRun (map string_bytes words.now.items) → (ticks : ℕ) × RanIfTold SCRIPT_LIMIT
        (S.left script.old) (S.left script.new) (F.files shelf.old)
        (linked (K.attempts links.old) (K.wire links.old)) (linked (K.attempts links.new) (K.wire links.new))
        (Rose (S.faults script.old) (S.faults script.new)) (Rose (F.faults shelf.old) (F.faults shelf.new))
        (W.written out.old) (W.written out.new) 0 ticks result }
    ensures demonstrated { (seed : ℕ) → IsDemo (map string_bytes words.now.items) seed
        → Demonstrates seed (W.written out.old) (W.written out.new) result }
    ensures unused { (seed : ℕ) → IsDemo (map string_bytes words.now.items) seed
        → (script.new ≡ script.old) × (shelf.new ≡ shelf.old) × (links.new ≡ links.old) }
    ensures known { IsStatus result }
    ensures other_words { result ≡ 2 → ¬ AreOwn (map string_bytes words.now.items) }
    ensures own_words { result ≢ 2 → AreOwn (map string_bytes words.now.items) }
    ensures untouched { result ≡ 2 → (script.new ≡ script.old) × (shelf.new ≡ shelf.old)
        × (links.new ≡ links.old) × (out.new ≡ out.old) }
    ensures at_end { IsRun (map string_bytes words.now.items) → (result ≡ 0) ⊎ (result ≡ 1)
        → IsAtEnd (S.left script.new) }
    ensures input_cause { result ≡ 3 → Rose (S.faults script.old) (S.faults script.new)
        ⊎ Rose (F.faults shelf.old) (F.faults shelf.new) }
    ensures sink_cause { result ≡ 4 → Rose (W.faults out.old) (W.faults out.new) }
    ensures whole_lines { IsRun (map string_bytes words.now.items) → IsWhole result ⊎ (result ≡ 3)
        → ¬ Rose (F.faults shelf.old) (F.faults shelf.new) → AddsLines
        (W.written out.old) (W.written out.new) (K.faults links.old) (K.faults links.new) }
    ensures complete { IsRun (map string_bytes words.now.items) → Completes SCRIPT_LIMIT (S.left script.old)
        (Rose (S.faults script.old) (S.faults script.new)) (Rose (F.faults shelf.old) (F.faults shelf.new))
        (Rose (W.faults out.old) (W.faults out.new)) result }
    ensures names { names_of (F.files shelf.new) ≡ names_of (F.files shelf.old) }
{
    let mut steps = Steps::<L>::new(blank);
    run(alloc, words, script, shelf, links, out, &mut steps)
}
