//! Files of payloads, one after another.
ghost use Rattle.std.specs.Prelude.{◌≡◌, ◌≢◌, ◌≤◌, length, IfOk, IfErr};
ghost use Rattle.aspa_payload.specs.File.{FileAnswers, IsFileReading, IsOfUnit};
ghost use Rattle.aspa_payload.specs.declared.file.FileFault.TheVariants.{NoMemory as OutOfMemory};

use crate::fault::PayloadFault;
use crate::reading::take_payload;
use av_base::NoMemory;
use path_model::{Gathered, Rows};
use std::alloc::Global;
use thiserror::Error;

/// Why a file of payloads is refused.
#[derive(Clone, Copy, Debug, PartialEq, Eq, Error)]
pub enum FileFault {
    /// The first refused unit, which is a payload or a line, counted from 1, and the first rule that it breaks.
    #[error("unit {unit}: {cause}")]
    Bad { unit: u32, cause: PayloadFault },
    /// There was no memory.
    #[error("no memory")]
    NoMemory,
}

impl From<NoMemory> for FileFault {
    ghost from_gives = { λ _ e. e ≡ OutOfMemory };

    fn from(_: NoMemory) -> FileFault {
        FileFault::NoMemory
    }
}

// How a refused unit refuses its file.
pub(crate) fn of_unit(unit: u32, cause: PayloadFault) -> FileFault
    ensures { IsOfUnit unit cause result }
{
    match cause {
        PayloadFault::NoMemory => FileFault::NoMemory,
        cause => FileFault::Bad { unit, cause },
    }
}

/// Reads payloads one after another, and unites them per customer. No bytes are no payloads, and give no rows.
pub fn read_many(alloc: Global, bytes: &[u8]) -> Result<Rows, FileFault>
    requires { length bytes.now ≤ 67108864 }
    ensures { FileAnswers (IsFileReading bytes.now) result }
{
    let mut gathered = Gathered::new(alloc);
    let mut rest = bytes;
    let mut unit: u32 = 0;
    while !rest.is_empty() {
        unit += 1;
        let (payload, more) = match take_payload(alloc, rest) {
            Ok(taken) => taken,
            Err(cause) => return Err(of_unit(unit, cause)),
        };
        gathered.gather(payload.customer(), payload.providers().as_slice())?;
        rest = more;
    }
    Ok(gathered.into_rows()?)
}
