//! Laws of the definitions: the contract of each function is the law, and its body does nothing.
ghost use Rattle.hop_index.specs.Laws.{HopsJoinNeighbours, RemovalUndoesAddition, EndsReachCases};

/// A chain has a hop between two ASes exactly where they stand beside each other somewhere in it.
pub fn hops_join_neighbours()
    ensures { HopsJoinNeighbours }
{}

/// What is added of a case that the index has no hop of, and then removed, leaves the hops that were there.
pub fn removal_undoes_addition()
    ensures { RemovalUndoesAddition }
{}

/// A case is among what [`HopIndex::through`](crate::HopIndex::through) gives of x, with an AS of some kind, exactly where the index has a
/// hop of the case between x and such an AS.
pub fn ends_reach_cases()
    ensures { EndsReachCases }
{}
