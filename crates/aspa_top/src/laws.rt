//! Laws of the definitions: the contract of each function is the law, and its body does nothing.
ghost use Rattle.aspa_top.specs.Laws.{AttestedTextRestoresTheTable, AttestedTextWritesItself, EachScriptWithoutAttemptsHasAText, FeedsWereConnected, FailedScriptsWroteWhatHadCome, NoScriptHasTwoTexts, RefusalsAreCounted, RunsWriteFronts, ServedRoutersGetTheTable, SourcesHaveFeedsPayloads, UnbrokenFeedsAreLostAtEnd};

/// In a world whose attempts are told no script has two texts.
pub fn no_script_has_two_texts()
    ensures { NoScriptHasTwoTexts }
{}

/// In each world each script that connects no feed and serves no routers has a text.
pub fn each_script_without_attempts_has_a_text()
    ensures { EachScriptWithoutAttemptsHasAText }
{}

/// What a run that ends early has written is a front of the text of all lines that it was to perform.
pub fn runs_write_fronts()
    ensures { RunsWriteFronts }
{}

/// Where a run ended because the script failed, exactly the text of the lines whose LF had been read was written: no line less, and nothing of
/// the part after them.
pub fn failed_scripts_wrote_what_had_come()
    ensures { FailedScriptsWroteWhatHadCome }
{}

/// As many refusals are counted as the text of the lines has lines that begin with `! `: it is the number that `summary` shows.
pub fn refusals_are_counted()
    ensures { RefusalsAreCounted }
{}

/// Each feed that lines leave is on a connection that one of the run's attempts made.
pub fn feeds_were_connected()
    ensures { FeedsWereConnected }
{}

/// Between two answers, as behind each End of Data, the source of a feed's name has in the origin records exactly the payloads that the
/// feed's session keeps, whatever lines came (draft-ietf-sidrops-8210bis, section 8).
pub fn sources_have_feeds_payloads()
    ensures { SourcesHaveFeedsPayloads }
{}

/// Where no connection that was made in the run is broken, a feed is lost only where nothing more is to come on its connection.
pub fn unbroken_feeds_are_lost_at_end()
    ensures { UnbrokenFeedsAreLostAtEnd }
{}

/// A router that a line serves, and that asks and takes the whole reply, holds exactly the current table of that line then, if it starts anew or
/// holds a version that the session's cache keeps.
pub fn served_routers_get_the_table()
    ensures { ServedRoutersGetTheTable }
{}

/// What an `attests` line writes of a table whose numbers are of 32 bits is a script, where that isn't too long for one: it writes nothing,
/// refuses nothing, and comes to the same current table. A run of it that nothing ends early has the status 0.
pub fn attested_text_restores_the_table()
    ensures { AttestedTextRestoresTheTable }
{}

/// With a line `attests` behind it that text is a script that writes the same text again.
pub fn attested_text_writes_itself()
    ensures { AttestedTextWritesItself }
{}
