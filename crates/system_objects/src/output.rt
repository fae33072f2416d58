ghost use Rattle.std.specs.Prelude.{◌≡◌, ◌<◌, ◌≤◌, length, IfOk};
ghost use Rattle.std.specs.Io.KnownBytes.{WriteAppends};
ghost use Rattle.av_base.specs.Told.{HasCause};

use crate::again::write_again;
use av_base::{Fault, Sink};
use std::io::Write;
use std::time::Clock;

/// A writer as a sink, which counts each error of the writer as a fault, but where it is to be written again, and each write that takes nothing. As a sink it tells no bytes,
/// since a writer may come to know its bytes late; what it does to those that the writer knows is said by its own clause.
#[derive(Drop)]
pub struct OutputSink<W: Write, C: Clock> {
    writer: W,
    clock: C,
    faults: u64,
}

impl<W: Write, C: Clock> OutputSink<W, C> {
    /// The sink of what the writer takes.
    pub fn new(writer: W, clock: C) -> OutputSink<W, C>
        ensures { result ≡ record { writer = writer; clock = clock; faults = 0 } }
    {
        OutputSink {
            writer,
            clock,
            faults: 0,
        }
    }
}

impl<W: Write, C: Clock> Sink for OutputSink<W, C> {
    ghost use Rattle.std.specs.Prelude.{None};

    ghost written = { λ _. None };

    ghost faults = { λ sink. sink.faults };

    fn write(&mut self, buf: &[u8]) -> Result<usize, Fault>
        requires { 0 < length buf.now }
        ensures some { IfOk result (λ n. 0 < n) }
        ensures bound { IfOk result (λ n. n ≤ length buf.now) }
        ensures cause { HasCause self.old.faults self.new.faults result }

        // Bytes that the writer knows grow by those that were taken, and at a fault they stay.
        ensures known { WriteAppends (W.contents self.old.writer) (W.contents self.new.writer) result buf.now }
    {
        match write_again(&mut self.writer, &self.clock, buf) {
            Ok(count) => Ok(count),
            Err(Fault) => {
                self.faults = self.faults.saturating_add(1);
                Err(Fault)
            }
        }
    }
}
