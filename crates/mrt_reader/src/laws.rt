//! Laws of records: the contract of each function is the law, and its body does nothing.
ghost use Rattle.mrt_reader.specs.Laws.{NoRecordBeginsAnother, OneThingComesNext, EachStreamHasItsUnits, TooLongStays, EachRecordHasOneReading, EachAnnouncementHasItsNote};

/// No record begins another one, so the records of a stream are determined by it.
pub fn no_record_begins_another()
    ensures { NoRecordBeginsAnother }
{}

/// In each stream exactly one thing comes next.
pub fn one_thing_comes_next()
    ensures { OneThingComesNext }
{}

/// A stream is its records, one behind another, and a rest with no whole one in front: exactly one list, with one rest.
pub fn each_stream_has_its_units()
    ensures { EachStreamHasItsUnits }
{}

/// A length over the limit stays one, whatever comes behind it.
pub fn too_long_stays()
    ensures { TooLongStays }
{}

/// Each record has exactly one reading, by whatever is known before it.
pub fn each_record_has_one_reading()
    ensures { EachRecordHasOneReading }
{}

/// What a record says has one note for each announcement, in order.
pub fn each_announcement_has_its_note()
    ensures { EachAnnouncementHasItsNote }
{}
