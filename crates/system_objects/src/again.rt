//! Calls that were interrupted, or that had nothing to give or to take yet, are made again.
ghost use Rattle.std.specs.Prelude.{◌≤◌, ◌<◌, length, IfOk};
ghost use Rattle.std.specs.Io.KnownBytes.{ReadConsumes, WriteAppends};

use av_base::Fault;
use std::io::{ErrorKind, Read, Write};
use std::thread;
use std::time::{Clock, Duration};

// How often a call is made again: at a hundredth of a second each, more than a year.
const TURNS: u32 = u32::MAX;

// How many milliseconds it takes until a call that would have had to wait is made again.
const PAUSE: u64 = 10;

/// Reads. Where a signal interrupts it, it reads again; and where the descriptor doesn't wait and has nothing yet, after a pause.
pub fn read_again<R: Read, C: Clock>(
    reader: &mut R,
    clock: &C,
    buf: &mut [u8],
) -> Result<usize, Fault>
    requires some_room { 0 < length buf.old }
    ensures bound { IfOk result (λ n. n ≤ length buf.new) }
    ensures known { ReadConsumes (R.remaining reader.old) (R.remaining reader.new) result buf.new }
{
    for _turn in 0..TURNS {
        match reader.read(buf) {
            Ok(count) => return Ok(count),
            Err(error) => {
                if !comes_again(clock, error.kind()) {
                    return Err(Fault);
                }
            }
        }
    }
    Err(Fault)
}

/// Writes, and tries again in the same two cases.
pub fn write_again<W: Write, C: Clock>(
    writer: &mut W,
    clock: &C,
    buf: &[u8],
) -> Result<usize, Fault>
    requires some_bytes { 0 < length buf.now }
    ensures some { IfOk result (λ n. 0 < n) }
    ensures bound { IfOk result (λ n. n ≤ length buf.now) }
    ensures known { WriteAppends (W.contents writer.old) (W.contents writer.new) result buf.now }
{
    for _turn in 0..TURNS {
        match writer.write(buf) {
            Ok(count) if count > 0 => return Ok(count),
            Ok(_) => return Err(Fault),
            Err(error) => {
                if !comes_again(clock, error.kind()) {
                    return Err(Fault);
                }
            }
        }
    }
    Err(Fault)
}

// Whether the call that failed so is to be made again. It pauses where that comes to something only later.
fn comes_again<C: Clock>(clock: &C, kind: ErrorKind) -> bool {
    match kind {
        ErrorKind::Interrupted => true,
        ErrorKind::WouldBlock => {
            thread::sleep(clock, Duration::from_millis(PAUSE));
            true
        }
        _ => false,
    }
}
