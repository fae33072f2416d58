//! Laws of the listings: the contract of each function is the law, and its body does nothing.
ghost use Rattle.listings.specs.Laws.{AttestsRestore, EachRowHasOneListOfGroups};
ghost use Rattle.listings.specs.Laws.{BlockedRoutesAreSuspected, EachStateHasOneListOfDetails, EachStateHasOneListOfPeers};
ghost use Rattle.listings.specs.Laws.{EachStateHasOneListOfSilentAses, EachStateHasOneListOfSuspects, EachStateHasOneSummary};
ghost use Rattle.listings.specs.Laws.{EachStateHasOneListOfNeighbours, EachStateHasOneListOfSent};

/// Each state of an analysis, with given numbers of units passed over and of lines that report a refusal, has exactly one summary.
pub fn each_state_has_one_summary()
    ensures { EachStateHasOneSummary }
{}

/// Each state has exactly one list of peers.
pub fn each_state_has_one_list_of_peers()
    ensures { EachStateHasOneListOfPeers }
{}

/// Each state has exactly one list of the routes that are sent, in a role and behind some ASes.
pub fn each_state_has_one_list_of_sent()
    ensures { EachStateHasOneListOfSent }
{}

/// Each state has exactly one list of the ASes beside an AS.
pub fn each_state_has_one_list_of_neighbours()
    ensures { EachStateHasOneListOfNeighbours }
{}

/// Each state has exactly one list of suspects.
pub fn each_state_has_one_list_of_suspects()
    ensures { EachStateHasOneListOfSuspects }
{}

/// Each state has exactly one list of the silent ASes that are asked about.
pub fn each_state_has_one_list_of_silent_ases()
    ensures { EachStateHasOneListOfSilentAses }
{}

/// Each state has exactly one list of details for any conditions.
pub fn each_state_has_one_list_of_details()
    ensures { EachStateHasOneListOfDetails }
{}

/// Each route that no completion makes valid, as its printed witness `Blocked` says, has a valley among the suspects.
pub fn each_blocked_route_has_a_suspect()
    ensures { BlockedRoutesAreSuspected }
{}

/// Each row of a customer has exactly one list of groups, one for each of its lines in `attests`.
pub fn each_row_has_one_list_of_groups()
    ensures { EachRowHasOneListOfGroups }
{}

/// The rows of `attests`, asserted by hand one after another from the start, can be, and give the same current table.
pub fn attests_restore_the_table()
    ensures { AttestsRestore }
{}
