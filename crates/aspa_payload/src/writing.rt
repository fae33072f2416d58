//! A payload, written.
ghost use Rattle.std.specs.Prelude.{◌≡◌, OnOk, OnErr};
ghost use Rattle.aspa_payload.specs.Writing.{PutsIntegers, PutsPayload};

use crate::content::SEQUENCE;
use crate::payload::Payload;
use av_base::NoMemory;
use der_reader::{put_u32, put_value};

// The value of tag A0 that holds the INTEGER 1.
const VERSION_1: [u8; 5] = [0xA0, 3, 2, 1, 1];

impl Payload {
    /// Appends the one spelling.
    pub fn write(&self, out: &mut Vec<u8>) -> Result<(), NoMemory>
        ensures ok { OnOk result (PutsPayload out.old.items out.new.items self.now) }
        ensures err { OnErr result (out.new.items ≡ out.old.items) }
    {
        let mut list = Vec::new(*out.allocator());
        put_integers(&mut list, self.providers().as_slice())?;
        let mut content = Vec::new(*out.allocator());
        content.extend_from_slice(&VERSION_1)?;
        put_u32(&mut content, self.customer())?;
        put_value(&mut content, SEQUENCE, &list)?;
        put_value(out, SEQUENCE, &content)
    }
}

// Appends INTEGERs. Some of them may stand there after want of memory.
fn put_integers(out: &mut Vec<u8>, numbers: &[u32]) -> Result<(), NoMemory>
    ensures { OnOk result (PutsIntegers out.old.items out.new.items numbers.now) }
{
    for number in numbers {
        put_u32(out, *number)?;
    }
    Ok(())
}
