//! `demo N`: the stated workload.
ghost use Rattle.std.specs.Prelude.{◌≡◌, ◌≤◌};
ghost use Rattle.av_base.specs.Told.{Rose};
ghost use Rattle.aspa_top.specs.Program.{Demonstrates};

use av_base::{Sink, Stop};
use stated_workload::perform;
use std::alloc::Global;

/// Performs the workload of this number, and answers the program's status.
pub(crate) fn run_demo<W: Sink>(alloc: Global, seed: u32, out: &mut W) -> u8
    ensures demonstrates { Demonstrates seed (W.written out.old) (W.written out.new) result }
    ensures sink_cause { result ≡ 4 → Rose (W.faults out.old) (W.faults out.new) }
    ensures sink_faults { W.faults out.old ≤ W.faults out.new }
{
    match perform(alloc, u64::from(seed), out) {
        Ok(()) => 0,
        Err(Stop::Sink) => 4,
        // it has no shelf that could fail
        Err(Stop::Shelf | Stop::NoMemory) => 5,
    }
}
