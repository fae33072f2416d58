//! The refusals of streams and of messages.
ghost use Rattle.std.specs.Prelude.{◌≡◌};
ghost use Rattle.bmp_reader.specs.declared.fault.BmpFault.TheVariants as faults;

use av_base::NoMemory;
use std::error::Error;
use std::fmt;

/// Why a stream ends before its end.
#[derive(Clone, Copy, Debug, PartialEq, Eq)]
pub enum BmpFrameFault {
    /// A header's version isn't 3.
    BmpVersion,
    /// A header's length is below 6 or over 4,194,304.
    BmpLength,
    /// The stream ends within a message.
    CutShort,
}

/// Why a message is refused.
#[derive(Clone, Copy, Debug, PartialEq, Eq)]
pub enum BmpFault {
    /// The fields of the body are cut, or an OPEN of a Peer Up is out of form.
    Body,
    /// The BGP message is out of form.
    Message,
    /// Path attributes are out of form.
    Attributes,
    /// A prefix is announced, and there is no AS_PATH.
    NoPath,
    /// There was no memory.
    NoMemory,
}

impl From<NoMemory> for BmpFault {
    ghost from_gives = { λ _ fault. fault ≡ faults.NoMemory };

    fn from(_: NoMemory) -> BmpFault {
        BmpFault::NoMemory
    }
}

impl fmt::Display for BmpFrameFault {
    fn fmt<W: fmt::Write>(&self, f: &mut fmt::Formatter<W>) -> fmt::Result {
        match self {
            BmpFrameFault::BmpVersion => write!(f, "a message has another version than 3"),
            BmpFrameFault::BmpLength => write!(f, "a message's length is out of range"),
            BmpFrameFault::CutShort => write!(f, "the stream ends within a message"),
        }
    }
}

impl Error for BmpFrameFault {}

impl fmt::Display for BmpFault {
    fn fmt<W: fmt::Write>(&self, f: &mut fmt::Formatter<W>) -> fmt::Result {
        match self {
            BmpFault::Body => write!(f, "the message's body is out of form"),
            BmpFault::Message => write!(f, "the BGP message is out of form"),
            BmpFault::Attributes => write!(f, "path attributes are out of form"),
            BmpFault::NoPath => write!(f, "a prefix is announced without AS_PATH"),
            BmpFault::NoMemory => write!(f, "out of memory"),
        }
    }
}

impl Error for BmpFault {}
