//! Laws of the definitions: the contract of each function is the law, and its body does nothing.
ghost use Rattle.report_text.specs.Laws.{EachChangeIsOneLine, EachCountOfChangesIsOneLine, EachDetailIsOneLine, EachFeedEndIsOneLine};
ghost use Rattle.report_text.specs.Laws.{EachLeakIsOneLine, EachNeighbourIsOneLine, EachOriginIsOneLine, EachOwnIsOneLine, EachPeerSummaryIsOneLine};
ghost use Rattle.report_text.specs.Laws.{EachReasonIsOneLine, EachRefusalIsOneLine, EachRowIsOneLine, EachSayingIsOneLine};
ghost use Rattle.report_text.specs.Laws.{EachServedIsOneLine, EachSilentAsIsOneLine, EachSummaryIsOneLine, EachSuspectIsOneLine};
ghost use Rattle.report_text.specs.Laws.{EachAssertedIsOneLine, EachAssertionIsOneLine, EachCurrentRowIsOneLine, EachFilteredIsOneLine};
ghost use Rattle.report_text.specs.Laws.{EachHopIsOneLine, EachSourceIsOneLine};

/// Whatever is refused, at a place whose name has no line feed, is reported by one line that begins with `! `.
pub fn each_refusal_is_one_line()
    ensures { EachRefusalIsOneLine }
{}

/// However a feed or a router ends whose name has no line feed, that is reported by one line that begins with `! `.
pub fn each_feed_end_is_one_line()
    ensures { EachFeedEndIsOneLine }
{}

/// Each answer is one line, and none begins with `! `: a row, a row with what shows its verdict and its path, the state of a route's
/// origin, what Only-to-Customer shows of a route, a change, how many changed, a summary, a peer with its role and how many routes it has,
/// how our own routes stand, what two neighbours attest of each other, what came of serving routers, why a path has its verdict, a valley of
/// paths, an AS that is asked about, and what the script wants said, where that has no line feed.
pub fn no_answer_reads_as_a_refusal()
    ensures rows { EachRowIsOneLine }
    ensures origins { EachOriginIsOneLine }
    ensures leaks { EachLeakIsOneLine }
    ensures changes { EachChangeIsOneLine }
    ensures counts { EachCountOfChangesIsOneLine }
    ensures summaries { EachSummaryIsOneLine }
    ensures peers { EachPeerSummaryIsOneLine }
    ensures own { EachOwnIsOneLine }
    ensures neighbours { EachNeighbourIsOneLine }
    ensures servings { EachServedIsOneLine }
    ensures reasons { EachReasonIsOneLine }
    ensures details { EachDetailIsOneLine }
    ensures suspects { EachSuspectIsOneLine }
    ensures silent { EachSilentAsIsOneLine }
    ensures sayings { EachSayingIsOneLine }
{}

/// So it is with what is attested: each line of a hop, of an assertion of a script, of what a source attests, where its name is one, of what a
/// local part asserts or filters out, and of a current row is one line, and none begins with `! `.
pub fn no_attested_line_reads_as_a_refusal()
    ensures hops { EachHopIsOneLine }
    ensures assertions { EachAssertionIsOneLine }
    ensures sources { EachSourceIsOneLine }
    ensures asserted { EachAssertedIsOneLine }
    ensures filtered { EachFilteredIsOneLine }
    ensures current { EachCurrentRowIsOneLine }
{}
