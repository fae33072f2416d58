//! Laws of valleys: the contract of each function is the law, and its body does nothing.
ghost use Rattle.valleys.specs.Laws.{BlockedPathsHaveValleys, ValleysMakeInvalid};

/// Each path whose printed witness is `Blocked` has a valley.
pub fn blocked_paths_have_valleys()
    ensures { BlockedPathsHaveValleys }
{}

/// No table by which the two hops of a valley refuse makes the path valid, whatever the other ASes attest: so no choice of provider sets
/// for any of them does while the rows of the two that refuse stand.
pub fn valleys_make_invalid()
    ensures { ValleysMakeInvalid }
{}
