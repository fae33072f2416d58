//! The causes for which a line is refused.
ghost use Rattle.std.specs.Prelude.{◌≡◌};
ghost use Rattle.script_lines.specs.declared.fault.LineFault.TheVariants.{NoMemory as OutOfMemory};

use av_base::NoMemory;
use thiserror::Error;

/// Why a line was refused, in the order of the tests, or that there was no memory to read it.
#[derive(Clone, Copy, Debug, PartialEq, Eq, Error)]
pub enum LineFault {
    /// 31: the line has more than 4,096 bytes.
    #[error("the line has more than 4,096 bytes")]
    Long,
    /// 32: the first word is no command.
    #[error("the first word is no command")]
    Command,
    /// 33: a byte isn't printable, the number of words is wrong, or a word isn't spelled as what must stand there.
    #[error("the number of words is wrong, or a byte or a word can't stand where it stands")]
    Words,
    /// 34: a word that must be a number isn't one in its range.
    #[error("a word that must be a number isn't one in its range")]
    Number,
    /// There was no memory.
    #[error("there was no memory")]
    NoMemory,
}

impl From<NoMemory> for LineFault {
    ghost from_gives = { λ _ e. e ≡ OutOfMemory };

    fn from(_error: NoMemory) -> LineFault {
        LineFault::NoMemory
    }
}
