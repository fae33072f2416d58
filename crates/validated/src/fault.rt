//! Why a validator's file is refused.
ghost use Rattle.std.specs.Prelude.{◌≡◌};
ghost use Rattle.validated.specs.Answers.{of_json};
ghost use Rattle.validated.specs.declared.fault.ValidatedFault.TheVariants.{NoMemory as OutOfMemory};

use av_base::NoMemory;
use json_fields::JsonFault;
use std::alloc::AllocFailed;
use thiserror::Error;

/// Why a validator's file is refused. The causes are tested in this order, each over the whole file.
#[derive(Clone, Copy, Debug, PartialEq, Eq, Error)]
pub enum ValidatedFault {
    /// Cause 11: the bytes aren't JSON.
    #[error("no JSON")]
    Json,
    /// Cause 13: a member is missing or of another kind, or an element is no object.
    #[error("another member")]
    Member,
    /// Cause 14: an AS or a moment isn't a whole number from 0 to 4,294,967,295.
    #[error("no number")]
    Number,
    /// Cause 42: a prefix is no text of a prefix, or a maximum length isn't a whole number from the prefix's length to 32 or 128.
    #[error("no prefix")]
    Prefix,
    /// There was no memory.
    #[error("no memory")]
    NoMemory,
}

impl From<JsonFault> for ValidatedFault {
    ghost from_gives = { λ fault e. e ≡ of_json fault };

    fn from(fault: JsonFault) -> ValidatedFault {
        match fault {
            JsonFault::Json => ValidatedFault::Json,
            JsonFault::NoMemory => ValidatedFault::NoMemory,
        }
    }
}

impl<T: Drop> From<AllocFailed<T>> for ValidatedFault {
    ghost from_gives = { λ _ e. e ≡ OutOfMemory };

    fn from(_: AllocFailed<T>) -> ValidatedFault {
        ValidatedFault::NoMemory
    }
}

impl From<NoMemory> for ValidatedFault {
    ghost from_gives = { λ _ e. e ≡ OutOfMemory };

    fn from(_: NoMemory) -> ValidatedFault {
        ValidatedFault::NoMemory
    }
}
