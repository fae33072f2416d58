//! Why nothing is read of a text.
ghost use Rattle.std.specs.Prelude.{◌≡◌};
ghost use Rattle.json_fields.specs.declared.fault.JsonFault.TheVariants.{Json as NoJson, NoMemory as OutOfMemory};

use std::alloc::{AllocError, AllocFailed};
use thiserror::Error;

/// Why nothing is read of a text.
#[derive(Clone, Copy, Debug, PartialEq, Eq, Error)]
pub enum JsonFault {
    /// It isn't JSON.
    #[error("no JSON")]
    Json,
    /// There was no memory.
    #[error("no memory")]
    NoMemory,
}

/// What a call answers that reads.
pub type Read<T> = Result<T, JsonFault>;

impl From<json::Invalid> for JsonFault {
    ghost from_gives = { λ _ e. e ≡ NoJson };

    fn from(_: json::Invalid) -> JsonFault {
        JsonFault::Json
    }
}

impl From<AllocError> for JsonFault {
    ghost from_gives = { λ _ e. e ≡ OutOfMemory };

    fn from(_: AllocError) -> JsonFault {
        JsonFault::NoMemory
    }
}

impl<T: Drop> From<AllocFailed<T>> for JsonFault {
    ghost from_gives = { λ _ e. e ≡ OutOfMemory };

    fn from(_: AllocFailed<T>) -> JsonFault {
        JsonFault::NoMemory
    }
}
