//! What a line asks for, or why it is refused.
ghost use Rattle.std.specs.Prelude.{◌≢◌, ◌↔◌, All, IsTrue};
ghost use Rattle.script_lines.specs.Grammar.{IsComment, IsPrintable, IsReading};

use crate::commands::{Command, command_name, read_fields};
use crate::fault::LineFault;
use av_text::words;
use std::alloc::Global;

// The most bytes that a line may have, unless it is a comment.
const MAX_LINE: usize = 4_096;

/// Reads one line, which stands without its LF and without a CR before that LF.
pub fn read(alloc: Global, line: &[u8]) -> Result<Command, LineFault>
    ensures { result ≢ Err LineFault.NoMemory → IsReading line.now result }
{
    if is_comment(line) {
        return Ok(Command::Idle);
    }
    if line.len() > MAX_LINE {
        return Err(LineFault::Long);
    }
    let mut arguments = words(line);
    let Some(first) = arguments.next() else {
        return Ok(Command::Idle);
    };
    let Some(name) = command_name(first) else {
        return Err(LineFault::Command);
    };
    if !is_printable(line) {
        return Err(LineFault::Words);
    }
    read_fields(alloc, name, arguments)
}

// Whether a line does nothing, whatever it holds and however long it is.
fn is_comment(line: &[u8]) -> bool
    ensures { IsTrue result ↔ IsComment line.now }
{
    match line.first() {
        Some(byte) => *byte == b'#',
        None => false,
    }
}

// Whether each byte is a tab or printable ASCII.
fn is_printable(line: &[u8]) -> bool
    ensures { IsTrue result ↔ All IsPrintable line.now }
{
    line.iter().all(|byte| matches!(*byte, b'\t' | b' '..=b'~'))
}
