//! The refusals of a message.
ghost use Rattle.std.specs.Prelude.{◌≡◌};
ghost use Rattle.bgp_update.specs.declared.fault.UpdateFault.TheVariants as faults;

use av_base::NoMemory;
use std::error::Error;
use std::fmt;

/// Why a message is refused.
#[derive(Clone, Copy, Debug, PartialEq, Eq)]
pub enum UpdateFault {
    /// The header or a field of an UPDATE is out of form, or one of its IPv4 prefixes.
    Message,
    /// The path attributes of the UPDATE are out of form.
    Attributes,
    /// A prefix is announced, and there is no AS_PATH.
    NoPath,
    /// There was no memory.
    NoMemory,
}

impl From<NoMemory> for UpdateFault {
    ghost from_gives = { λ _ fault. fault ≡ faults.NoMemory };

    fn from(_: NoMemory) -> UpdateFault {
        UpdateFault::NoMemory
    }
}

impl fmt::Display for UpdateFault {
    fn fmt<W: fmt::Write>(&self, f: &mut fmt::Formatter<W>) -> fmt::Result {
        match self {
            UpdateFault::Message => write!(f, "the BGP message is out of form"),
            UpdateFault::Attributes => write!(f, "path attributes are out of form"),
            UpdateFault::NoPath => write!(f, "a prefix is announced without AS_PATH"),
            UpdateFault::NoMemory => write!(f, "out of memory"),
        }
    }
}

impl Error for UpdateFault {}
