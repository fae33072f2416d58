//! Laws of events: the contract of each function is the law, and its body does nothing.
ghost use Rattle.analyser.specs.Laws.{ClearedRoutesAreListedAsGone, EventsHaveOneCost, EventsHaveOneOutcome};

/// Each event has exactly one outcome from any state.
pub fn events_have_one_outcome()
    ensures { EventsHaveOneOutcome }
{}

/// Each event has exactly one cost between any two states.
pub fn events_have_one_cost()
    ensures { EventsHaveOneCost }
{}

/// Once all routes are gone ([`crate::Analyser::clear`]), the list of changes has exactly the keys with a marked verdict, each as gone.
pub fn cleared_routes_are_listed_as_gone()
    ensures { ClearedRoutesAreListedAsGone }
{}
