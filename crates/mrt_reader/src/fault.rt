//! The refusals of streams and of bodies.
ghost use Rattle.std.specs.Prelude.{◌≡◌};
ghost use Rattle.mrt_reader.specs.declared.fault.BodyFault.TheVariants as faults;

use av_base::NoMemory;
use std::error::Error;
use std::fmt;

/// Why a stream ends before its end.
#[derive(Clone, Copy, Debug, PartialEq, Eq)]
pub enum FrameFault {
    /// A header's length is over 4,194,304.
    TooLong,
    /// The stream ends within a record.
    CutShort,
}

/// Why a record is refused.
#[derive(Clone, Copy, Debug, PartialEq, Eq)]
pub enum BodyFault {
    /// The fields of the body are cut or don't fill it, a prefix's length is over 32 or 128, or an address family is neither's.
    Body,
    /// A RIB record without a peer table before it.
    NoPeerTable,
    /// An entry's index isn't below the number of peers.
    PeerIndex,
    /// The recorded BGP message is out of form.
    Message,
    /// Path attributes are out of form.
    Attributes,
    /// A prefix is announced, and there is no AS_PATH.
    NoPath,
    /// There was no memory.
    NoMemory,
}

impl From<NoMemory> for BodyFault {
    ghost from_gives = { λ _ fault. fault ≡ faults.NoMemory };

    fn from(_: NoMemory) -> BodyFault {
        BodyFault::NoMemory
    }
}

impl fmt::Display for FrameFault {
    fn fmt<W: fmt::Write>(&self, f: &mut fmt::Formatter<W>) -> fmt::Result {
        match self {
            FrameFault::TooLong => write!(f, "a record is too long"),
            FrameFault::CutShort => write!(f, "the stream ends within a record"),
        }
    }
}

impl Error for FrameFault {}

impl fmt::Display for BodyFault {
    fn fmt<W: fmt::Write>(&self, f: &mut fmt::Formatter<W>) -> fmt::Result {
        match self {
            BodyFault::Body => write!(f, "the record's body is out of form"),
            BodyFault::NoPeerTable => write!(f, "no peer table is before the record"),
            BodyFault::PeerIndex => write!(f, "a peer's index is beyond the peer table"),
            BodyFault::Message => write!(f, "the BGP message is out of form"),
            BodyFault::Attributes => write!(f, "path attributes are out of form"),
            BodyFault::NoPath => write!(f, "a prefix is announced without AS_PATH"),
            BodyFault::NoMemory => write!(f, "out of memory"),
        }
    }
}

impl Error for BodyFault {}
