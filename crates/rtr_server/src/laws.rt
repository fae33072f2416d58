//! Laws of the definitions: the contract of each function is the law, and its body does nothing.
ghost use Rattle.rtr_server.specs.Laws.{LostRoutersBroke, RoutersHaveOneOutcome, ServeLinesHaveOneOutcome};

/// A router is reported as lost exactly where its connection is broken.
pub fn lost_routers_broke()
    ensures { LostRoutersBroke }
{}

/// On the same connection, from the same cache, a router has no two outcomes.
pub fn routers_have_one_outcome()
    ensures { RoutersHaveOneOutcome }
{}

/// Where the attempts are told, a line counts no two things, and has no two texts.
pub fn serve_lines_have_one_outcome()
    ensures { ServeLinesHaveOneOutcome }
{}
