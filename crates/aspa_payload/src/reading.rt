//! Bytes that are a payload, or begin with one.
ghost use Rattle.std.specs.Prelude.{◌≡◌, [], Some, None};
ghost use Rattle.aspa_payload.specs.Reading.{IsReading};
ghost use Rattle.aspa_payload.specs.Answers.{Answers, AnswersUnit, IsContentReading};

use crate::content::{Parts, SEQUENCE, read_parts};
use crate::fault::PayloadFault;
use crate::payload::Payload;
use der_reader::take_value;
use std::alloc::Global;

/// Reads exactly one payload. A refusal is the first rule that the bytes break; the causes `Base64` and `Moment` never come.
pub fn read(alloc: Global, bytes: &[u8]) -> Result<Payload, PayloadFault>
    ensures { Answers (IsReading bytes.now) result }
{
    let (content, rest) = take_value(bytes, SEQUENCE)?;
    if !rest.is_empty() {
        return Err(PayloadFault::NotDer);
    }
    read_content(alloc, content)
}

// The payload at the front, and the bytes after it.
pub(crate) fn take_payload(alloc: Global, bytes: &[u8]) -> Result<(Payload, &[u8]), PayloadFault>
    ensures { AnswersUnit bytes.now result }
{
    let (content, rest) = take_value(bytes, SEQUENCE)?;
    let payload = read_content(alloc, content)?;
    Ok((payload, rest))
}

// The payload of a content.
fn read_content(alloc: Global, content: &[u8]) -> Result<Payload, PayloadFault>
    ensures { Answers (IsContentReading content.now) result }
{
    let Parts {
        version,
        customer,
        providers,
    } = read_parts(alloc, content)?;
    if version != Some(1) {
        return Err(PayloadFault::Version);
    }
    Payload::of(customer, providers)
}
