//! Why a SLURM file is refused.
ghost use Rattle.std.specs.Prelude.{◌≡◌};
ghost use Rattle.slurm_rules.specs.Answers.{of_json};
ghost use Rattle.slurm_rules.specs.declared.fault.SlurmFault.TheVariants.{NoMemory as OutOfMemory};

use av_base::NoMemory;
use json_fields::JsonFault;
use thiserror::Error;

/// Why a SLURM file is refused. The causes are tested in this order, each over the whole file.
#[derive(Clone, Copy, Debug, PartialEq, Eq, Error)]
pub enum SlurmFault {
    /// The bytes aren't JSON.
    #[error("no JSON")]
    Json,
    /// The file isn't an object, or its version isn't the whole number 1 or 2.
    #[error("no known version")]
    Version,
    /// An object lacks a member, or has one that isn't listed or is of another kind.
    #[error("another member")]
    Member,
    /// An AS number isn't a whole number from 0 to 4,294,967,295.
    #[error("no AS number")]
    Number,
    /// Cause 42: a prefix is no text of a prefix, or a maximum length isn't a whole number from the prefix's length to 32 or 128.
    #[error("no prefix")]
    PrefixText,
    /// There was no memory.
    #[error("no memory")]
    NoMemory,
}

impl From<JsonFault> for SlurmFault {
    ghost from_gives = { λ fault e. e ≡ of_json fault };

    fn from(fault: JsonFault) -> SlurmFault {
        match fault {
            JsonFault::Json => SlurmFault::Json,
            JsonFault::NoMemory => SlurmFault::NoMemory,
        }
    }
}

impl From<NoMemory> for SlurmFault {
    ghost from_gives = { λ _ e. e ≡ OutOfMemory };

    fn from(_: NoMemory) -> SlurmFault {
        SlurmFault::NoMemory
    }
}
