//! Why a payload is refused.
ghost use Rattle.std.specs.Prelude.{◌≡◌};
ghost use Rattle.aspa_payload.specs.declared.fault.PayloadFault.TheVariants.{NotDer, NoMemory as OutOfMemory};

use av_base::NoMemory;
use der_reader::DerFault;
use thiserror::Error;

/// Why a payload is refused: the first rule that it breaks.
#[derive(Clone, Copy, Debug, PartialEq, Eq, Error)]
pub enum PayloadFault {
    /// The bytes aren't of the shape, or something follows them.
    #[error("no payload in DER")]
    NotDer,
    /// The version isn't given, or isn't 1.
    #[error("another version than 1")]
    Version,
    /// The list of providers is empty.
    #[error("no providers")]
    NoProviders,
    /// The providers don't strictly ascend.
    #[error("providers out of order")]
    Order,
    /// The customer is among its providers.
    #[error("the customer is its own provider")]
    SelfProvider,
    /// The line isn't strict base64 with padding.
    #[error("no base64")]
    Base64,
    /// What stands behind the line's first space isn't a moment, a number of 32 bits.
    #[error("no moment")]
    Moment,
    /// There was no memory.
    #[error("no memory")]
    NoMemory,
}

impl From<DerFault> for PayloadFault {
    ghost from_gives = { λ _ e. e ≡ NotDer };

    fn from(_: DerFault) -> PayloadFault {
        PayloadFault::NotDer
    }
}

impl From<NoMemory> for PayloadFault {
    ghost from_gives = { λ _ e. e ≡ OutOfMemory };

    fn from(_: NoMemory) -> PayloadFault {
        PayloadFault::NoMemory
    }
}
