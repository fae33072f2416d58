//! Laws of PDUs and of their streams: the contract of each function is the law, and its body does nothing.
ghost use Rattle.rtr_pdu.specs.Laws.{EachStreamHasItsUnits, EachStreamHasOneNext, NoPduBeginsAnother, PartialIsShort, StaysRefused, WrittenReadsBack};

/// No PDU is a prefix of a different one.
pub fn no_pdu_begins_another()
    ensures { NoPduBeginsAnother }
{}

/// Bytes that are refused stay refused so, whatever follows them.
pub fn refused_stays_refused()
    ensures { StaysRefused }
{}

/// What a stream begins with has exactly one answer.
pub fn each_stream_has_one_next()
    ensures { EachStreamHasOneNext }
{}

/// A stream has exactly one list of units, with one rest.
pub fn each_stream_has_its_units()
    ensures { EachStreamHasItsUnits }
{}

/// A PDU that isn't whole has fewer bytes than the longest one.
pub fn partial_is_short()
    ensures { PartialIsShort }
{}

/// What is written is read back as itself.
pub fn written_reads_back()
    ensures { WrittenReadsBack }
{}
