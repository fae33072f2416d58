//! Laws of the definitions: the contract of each function is the law, and its body does nothing.
ghost use Rattle.stream_lines.specs.Laws.{RefusedUnitsAreCounted, UnitsHaveOneOutcome, UntilHasOneOutcome};

/// From each dump any number of units has exactly one text, and leaves exactly one state.
pub fn units_have_one_outcome()
    ensures { UnitsHaveOneOutcome }
{}

/// From each dump the units up to a moment have exactly one text, and leave exactly one state.
pub fn until_has_one_outcome()
    ensures { UntilHasOneOutcome }
{}

/// As many refusals are counted as the text of the units has lines that begin with `! `.
pub fn refused_units_are_counted()
    ensures { RefusedUnitsAreCounted }
{}
