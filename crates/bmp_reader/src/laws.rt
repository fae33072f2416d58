//! Laws of messages: the contract of each function is the law, and its body does nothing.
ghost use Rattle.bmp_reader.specs.Laws.{NoMessageBeginsAnother, OneThingComesNext, EachStreamHasItsUnits, OtherVersionStays, BadLengthStays, EachMessageHasOneReading, EachAnnouncementHasItsNote, EachOpenHasItsCapabilities};

/// No message begins another one, so the messages of a stream are determined by it.
pub fn no_message_begins_another()
    ensures { NoMessageBeginsAnother }
{}

/// In each stream exactly one thing comes next.
pub fn one_thing_comes_next()
    ensures { OneThingComesNext }
{}

/// A stream is its messages, one behind another, and a rest with no whole one in front: exactly one list, with one rest.
pub fn each_stream_has_its_units()
    ensures { EachStreamHasItsUnits }
{}

/// Another version than 3 stays one, whatever comes behind it.
pub fn other_version_stays()
    ensures { OtherVersionStays }
{}

/// A bad length stays one, whatever comes behind it.
pub fn bad_length_stays()
    ensures { BadLengthStays }
{}

/// Each message has exactly one reading, in either view and by whatever peers have path identifiers.
pub fn each_message_has_one_reading()
    ensures { EachMessageHasOneReading }
{}

/// What a message says has one note for each announcement, in order.
pub fn each_announcement_has_its_note()
    ensures { EachAnnouncementHasItsNote }
{}

/// Each OPEN has exactly one list of capabilities.
pub fn each_open_has_its_capabilities()
    ensures { EachOpenHasItsCapabilities }
{}
