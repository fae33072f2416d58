//! A line: the base64 of one payload, alone or with the moment at which what it attests ends.
ghost use Rattle.std.specs.Prelude.{◌≡◌, Some, None, Ok, IfOk, IfErr, position};
ghost use Rattle.aspa_payload.specs.Line.{
  is_space,
  lent,
  text_of,
  word_of,
  IsLineReading,
  IsTextReading,
  SpellsEnd,
  SpellsNoEnd,
};
ghost use Rattle.aspa_payload.specs.Answers.{Answers};

use crate::fault::PayloadFault;
use crate::payload::Payload;
use crate::reading::read;
use av_text::read_u32;
use base64::DecodeAllocError;
use base64::engine::general_purpose::STANDARD;
use std::alloc::Global;

/// A payload, and the moment at which what it attests ends: what a line says, and what definitions of files of other kinds speak of.
#[derive(Drop)]
pub struct Dated {
    /// The payload.
    pub payload: Payload,
    /// The moment of its end, in seconds; `None` is never.
    pub until: Option<u32>,
}

// Reads one line that isn't empty. What its text decodes to is kept in the buffer.
pub(crate) fn read_line(
    alloc: Global,
    line: &[u8],
    buffer: &mut Vec<u8>,
) -> Result<Dated, PayloadFault>
    ensures { Answers (IsLineReading line.now) result }
{
    let (text, word) = split(line);
    let until = read_end(word)?;
    let payload = read_text(alloc, text, buffer)?;
    Ok(Dated { payload, until })
}

// The text of a line, and the word behind its first space, if it has one.
fn split(line: &[u8]) -> (&[u8], Option<&[u8]>)
    ensures text { result.0.now ≡ text_of line.now }
    ensures word { lent result.1 ≡ word_of line.now }
{
    match first_space(line) {
        Some(place) => {
            let (text, behind) = line.split_at(place);
            let (_, word) = behind.split_at(1);
            (text, Some(word))
        }
        None => (line, None),
    }
}

// Where the first space stands.
fn first_space(line: &[u8]) -> Option<usize>
    ensures { result ≡ position is_space line.now }
{
    line.iter().position(|byte| *byte == b' ')
}

// The end of a line that has this word; without one it never ends.
fn read_end(word: Option<&[u8]>) -> Result<Option<u32>, PayloadFault>
    ensures end { IfOk result (SpellsEnd (lent word.entry)) }
    ensures refused { IfErr result (λ fault. (fault ≡ PayloadFault.Moment)
        × SpellsNoEnd (lent word.entry)) }
{
    let Some(word) = word else {
        return Ok(None);
    };
    match read_u32(word) {
        Some(moment) => Ok(Some(moment)),
        None => Err(PayloadFault::Moment),
    }
}

// Reads the base64 of one payload. What it decodes to is kept in the buffer.
fn read_text(alloc: Global, text: &[u8], buffer: &mut Vec<u8>) -> Result<Payload, PayloadFault>
    ensures { Answers (IsTextReading text.now) result }
{
    buffer.clear();
    match STANDARD.decode_vec(text, buffer) {
        Ok(()) => read(alloc, buffer),
        Err(DecodeAllocError::OutOfMemory) => Err(PayloadFault::NoMemory),
        Err(DecodeAllocError::DecodeError(_)) => Err(PayloadFault::Base64),
    }
}
