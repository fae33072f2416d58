ghost use Rattle.std.specs.Prelude.{◌≡◌, ◌<◌, ◌≤◌, length, IfOk};
ghost use Rattle.std.specs.Io.KnownBytes.{ReadConsumes};
ghost use Rattle.av_base.specs.Told.{HasCause};

use crate::again::read_again;
use av_base::{Fault, Source};
use std::io::Read;
use std::time::Clock;

/// A reader as a source, which counts each error of the reader as a fault, but where it is to be read again. As a source it tells no bytes, since a reader may come to
/// know its bytes late; what it does to those that the reader knows is said by its own clause.
#[derive(Drop)]
pub struct InputSource<R: Read, C: Clock> {
    reader: R,
    clock: C,
    faults: u64,
}

impl<R: Read, C: Clock> InputSource<R, C> {
    /// The source of what the reader gives.
    pub fn new(reader: R, clock: C) -> InputSource<R, C>
        ensures { result ≡ record { reader = reader; clock = clock; faults = 0 } }
    {
        InputSource {
            reader,
            clock,
            faults: 0,
        }
    }
}

impl<R: Read, C: Clock> Source for InputSource<R, C> {
    ghost use Rattle.std.specs.Prelude.{None};

    ghost left = { λ _. None };

    ghost faults = { λ source. source.faults };

    fn read(&mut self, buf: &mut [u8]) -> Result<usize, Fault>
        requires { 0 < length buf.old }
        ensures bound { IfOk result (λ n. n ≤ length buf.new) }
        ensures cause { HasCause self.old.faults self.new.faults result }

        // Bytes that the reader knows are given as they are, 0 comes only at their end, and at a fault none is lost.
        ensures known { ReadConsumes (R.remaining self.old.reader) (R.remaining self.new.reader) result buf.new }
    {
        match read_again(&mut self.reader, &self.clock, buf) {
            Ok(count) => Ok(count),
            Err(Fault) => {
                self.faults = self.faults.saturating_add(1);
                Err(Fault)
            }
        }
    }
}
