//! Laws of the definitions: the contract of each function is the law, and its body does nothing.
ghost use Rattle.rtr_client.specs.Laws.{EachTellingIsOneLine, FeedLinesHaveOneOutcome, FeedsHaveTheirPayloads, LostFeedsBrokeOrEnded};

/// On the same connections, with attempts that are told, a line has no two texts, and leaves no two states.
pub fn feed_lines_have_one_outcome()
    ensures { FeedLinesHaveOneOutcome }
{}

/// Whatever is reported of a feed whose name has no line feed is one line of text that begins with `! `.
pub fn each_telling_is_one_line()
    ensures { EachTellingIsOneLine }
{}

/// Where a line reports a feed as lost, its connection broke, or nothing more is to come on it.
pub fn lost_feeds_broke_or_ended()
    ensures { LostFeedsBrokeOrEnded }
{}

/// Each End of Data replaces what the source of the feed's name has in the origin records by the payloads that the feed's session keeps then,
/// and until the next answer ends they stay the same (draft-ietf-sidrops-8210bis, section 8).
pub fn feeds_have_their_payloads()
    ensures { FeedsHaveTheirPayloads }
{}
