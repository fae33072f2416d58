//! The parts of a payload's content.
ghost use Rattle.std.specs.Prelude.{◌≡◌, ℕ, List, Option, [], Some, None};
ghost use Rattle.aspa_payload.specs.Answers.{Reads, ReadsVersion};
ghost use Rattle.aspa_payload.specs.Content.{AreIntegers, IsContent};

use crate::fault::PayloadFault;
use der_reader::{take_u32, take_value};
use path_model::AsList;
use std::alloc::Global;

// The tags of a SEQUENCE, and of the version's explicit tag [0].
pub(crate) const SEQUENCE: u8 = 0x30;

const VERSION: u8 = 0xA0;

// The parts of a payload, before its rules are tested.
#[derive(Drop)]
pub(crate) struct Parts {
    pub(crate) version: Option<u32>,
    pub(crate) customer: u32,
    pub(crate) providers: AsList,
}

// The parts of a whole content.
pub(crate) fn read_parts(alloc: Global, content: &[u8]) -> Result<Parts, PayloadFault>
    ensures { Reads PayloadFault.NotDer (λ parts. parts) result (IsContent content.now) }
{
    let (version, rest) = take_version(content)?;
    let (customer, rest) = take_u32(rest)?;
    let (list, rest) = take_value(rest, SEQUENCE)?;
    if !rest.is_empty() {
        return Err(PayloadFault::NotDer);
    }
    let providers = read_integers(alloc, list)?;
    Ok(Parts {
        version,
        customer,
        providers,
    })
}

// The version, if it is given, and the bytes after it.
fn take_version(content: &[u8]) -> Result<(Option<u32>, &[u8]), PayloadFault>
    ensures { ReadsVersion content.now result }
{
    if content.first() != Some(&VERSION) {
        return Ok((None, content));
    }
    let (inner, rest) = take_value(content, VERSION)?;
    let (version, after) = take_u32(inner)?;
    if !after.is_empty() {
        return Err(PayloadFault::NotDer);
    }
    Ok((Some(version), rest))
}

// The INTEGERs that some bytes are.
fn read_integers(alloc: Global, bytes: &[u8]) -> Result<AsList, PayloadFault>
    ensures { Reads PayloadFault.NotDer (λ list. list) result (AreIntegers bytes.now) }
{
    let mut list = AsList::new(alloc);
    let mut rest = bytes;
    while !rest.is_empty() {
        let Ok((number, more)) = take_u32(rest) else {
            return Err(PayloadFault::NotDer);
        };
        list.push(number)?;
        rest = more;
    }
    Ok(list)
}
