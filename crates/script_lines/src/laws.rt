//! Laws of the definitions: the contract of each function is the law, and its body does nothing.
ghost use Rattle.script_lines.specs.Laws.{EachLineHasOneReading};

/// Each line is one command, or refused for one cause.
pub fn each_line_has_one_reading()
    ensures { EachLineHasOneReading }
{}
