//! The workload of a seed, performed.
ghost use Rattle.std.specs.Prelude.{◌≡◌, ◌<◌, ◌≤◌, ◌^◌, length, IfOk, OnOk, IsErrOf};
ghost use Rattle.av_base.specs.Told.{Rose};
ghost use Rattle.rib_store.specs.ChangesLeft.{changes_left};
ghost use Rattle.stated_workload.specs.Text.{IsTextOf, WritesFront, WritesPart, WritesText};

use crate::happening::happen_all;
use crate::workload::workload_of;
use analyser::Analyser;
use av_base::{NoMemory, Sink, Steps, Stop, pour};
use listings::summary_of;
use report_text::{put_changed, put_summary};
use rib_store::Journal;
use std::alloc::Global;
use std::marker::Brand;
use std::sync::ledger::{Blank, Ledger};

/// Performs the workload of a seed on an analysis of its own, and writes its three lines: a summary once all is loaded, a summary once
/// all is amended, and how many keys changed in between. They are written when all is done.
#[tactic(auto, using(crate::proofs::TextLemmas::writing))]
pub fn perform<W: Sink>(alloc: Global, seed: u64, out: &mut W) -> Result<(), Stop>
    ensures whole { OnOk result (WritesText seed (W.written out.old) (W.written out.new)) }
    ensures cut { IsErrOf result Stop.Sink
        → WritesPart seed (W.written out.old) (W.written out.new) }

    // Whether it ended early or not.
    ensures front { WritesFront seed (W.written out.old) (W.written out.new) }
    ensures no_shelf { IsErrOf result Stop.Shelf → ⊥ }
    ensures sink_cause { IsErrOf result Stop.Sink → Rose (W.faults out.old) (W.faults out.new) }
    ensures sink_faults { W.faults out.old ≤ W.faults out.new }
{
    let mut text = text_of::<Brand>(alloc, seed, Blank::new(1))?;
    pour(out, &mut text)?;
    Ok(())
}

// The three lines. The judgements are counted here, and nobody reads the count.
fn text_of<L: Ledger>(alloc: Global, seed: u64, blank: Blank) -> Result<Vec<u8>, NoMemory>
    requires name { blank.name ≡ L.name }
    requires parts { blank.parts ≡ L.parts }
    requires one { L.parts ≡ 1 }
    ensures { IfOk result (λ text. IsTextOf seed text.items) }
{
    let mut steps = Steps::<L>::new(blank);
    let workload = workload_of(alloc, seed)?;
    let mut text = Vec::new(alloc);
    let begun = Analyser::new(alloc)?;
    let loaded = happen_all(begun, workload.loading, &mut steps)?;
    put_summary(&mut text, summary_of(loaded.store(), 0, 0))?;
    let amended = happen_all(loaded.mark(), workload.amending, &mut steps)?;
    put_summary(&mut text, summary_of(amended.store(), 0, 0))?;
    put_changed(&mut text, count_changes(amended.store().changes()))?;
    Ok(text)
}

// How many changes a journal has left.
fn count_changes(journal: Journal<'_>) -> u64
    requires { length (changes_left journal) < 2 ^ 64 }
    ensures { result ≡ length (changes_left journal.entry) }
{
    let mut count = 0;
    for _change in journal {
        count += 1;
    }
    count
}
