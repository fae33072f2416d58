//! Why a line, or the reading of a file, ends early.
ghost use Rattle.std.specs.Prelude.{◌≡◌};
ghost use Rattle.av_base.specs.declared.stop.ReadFault.TheVariants.{Source as SourceFault, NoMemory as NoRoom};
ghost use Rattle.av_base.specs.declared.stop.Stop.TheVariants.{Sink as SinkFault, NoMemory as OutOfMemory};
ghost use Rattle.av_base.specs.Stops.{stop_of};

use crate::fault::{Fault, NoMemory};
use std::alloc::AllocError;
use std::error::Error;
use std::fmt;

/// Why reading a source, or a file of the shelf, ended early.
#[derive(Clone, Copy, Debug, PartialEq, Eq)]
pub enum ReadFault {
    /// The source or the shelf failed, and counted it.
    Source,
    /// There was no memory.
    NoMemory,
}

/// Why the lines weren't performed to the last.
#[derive(Clone, Copy, Debug, PartialEq, Eq)]
pub enum Stop {
    /// The shelf failed, and counted it.
    Shelf,
    /// The sink failed, and counted it.
    Sink,
    /// There was no memory.
    NoMemory,
}

impl From<Fault> for ReadFault {
    ghost from_gives = { λ _ e. e ≡ SourceFault };

    fn from(_fault: Fault) -> ReadFault {
        ReadFault::Source
    }
}

impl From<AllocError> for ReadFault {
    ghost from_gives = { λ _ e. e ≡ NoRoom };

    fn from(_error: AllocError) -> ReadFault {
        ReadFault::NoMemory
    }
}

impl From<NoMemory> for ReadFault {
    ghost from_gives = { λ _ e. e ≡ NoRoom };

    fn from(_error: NoMemory) -> ReadFault {
        ReadFault::NoMemory
    }
}

impl From<Fault> for Stop {
    ghost from_gives = { λ _ e. e ≡ SinkFault };

    fn from(_fault: Fault) -> Stop {
        Stop::Sink
    }
}

impl From<NoMemory> for Stop {
    ghost from_gives = { λ _ e. e ≡ OutOfMemory };

    fn from(_error: NoMemory) -> Stop {
        Stop::NoMemory
    }
}

impl From<ReadFault> for Stop {
    ghost from_gives = { λ fault stop. stop ≡ stop_of fault };

    fn from(fault: ReadFault) -> Stop {
        match fault {
            ReadFault::Source => Stop::Shelf,
            ReadFault::NoMemory => Stop::NoMemory,
        }
    }
}

impl fmt::Display for ReadFault {
    fn fmt<W: fmt::Write>(&self, f: &mut fmt::Formatter<W>) -> fmt::Result {
        match self {
            ReadFault::Source => write!(f, "reading failed"),
            ReadFault::NoMemory => write!(f, "out of memory"),
        }
    }
}

impl Error for ReadFault {}

impl fmt::Display for Stop {
    fn fmt<W: fmt::Write>(&self, f: &mut fmt::Formatter<W>) -> fmt::Result {
        match self {
            Stop::Shelf => write!(f, "a file couldn't be read"),
            Stop::Sink => write!(f, "the output couldn't be written"),
            Stop::NoMemory => write!(f, "out of memory"),
        }
    }
}

impl Error for Stop {}
