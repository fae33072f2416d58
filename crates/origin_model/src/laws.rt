//! Laws of states, of covering and of changes: the contract of each function is the law, and its body does nothing.
ghost use Rattle.origin_model.specs.Laws.{As0MakesNothingValid, ChangesMakeOneSet, CoveringIsAnOrder, EachRouteHasOneState, RoutesWithoutOriginAreNeverValid};

/// Each route has exactly one state, whatever is current.
pub fn each_route_has_one_state()
    ensures { EachRouteHasOneState }
{}

/// What payloads of AS 0 alone cover is invalid, whoever originates it.
pub fn as_0_makes_nothing_valid()
    ensures { As0MakesNothingValid }
{}

/// A route whose path has an AS_SET or no AS is never valid, and is invalid where a current payload covers it.
pub fn routes_without_origin_are_never_valid()
    ensures { RoutesWithoutOriginAreNeverValid }
{}

/// Each prefix covers itself, none of the other family, and what those cover that it covers. Of two that cover a third one the shorter
/// covers the longer, and two that cover each other are one.
pub fn covering_is_an_order()
    ensures { CoveringIsAnOrder }
{}

/// Changes make exactly one set of any payloads.
pub fn changes_make_one_set()
    ensures { ChangesMakeOneSet }
{}
