//! The law of a validator's files: the contract of the function is the law, and its body does nothing.
ghost use Rattle.validated.specs.Laws.{EachFileHasOneReading};

/// Each file has one reading: it says one thing, or it is refused for one cause.
pub fn each_file_has_one_reading()
    ensures { EachFileHasOneReading }
{}
