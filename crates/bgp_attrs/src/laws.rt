//! Laws of readings: the contract of each function is the law, and its body does nothing.
ghost use Rattle.bgp_attrs.specs.Laws.{AttributesHaveOneReading, AttributesReadOrNot, MergedAsTheStandardSays, NoPrefixBeginsAnother, PrefixesHaveOneReading};

/// Path attributes have one reading, if any.
pub fn attributes_have_one_reading()
    ensures { AttributesHaveOneReading }
{}

/// Bytes have a reading as path attributes, or they have none (`IsUnreadable`): it is always one of the two.
pub fn attributes_read_or_not()
    ensures { AttributesReadOrNot }
{}

/// No prefix's spelling, with or without a path identifier, begins another one.
pub fn no_prefix_begins_another()
    ensures { NoPrefixBeginsAnother }
{}

/// Bytes are the spellings of one list of prefixes, with or without path identifiers, if of any.
pub fn prefixes_have_one_reading()
    ensures { PrefixesHaveOneReading }
{}

/// What AS_PATH and AS4_PATH give together is the path that the standard constructs: as many items as AS_PATH has, of which AS4_PATH's
/// are the last, or AS_PATH alone where AS4_PATH counts more (RFC 6793, section 4.2.3).
pub fn merged_as_the_standard_says()
    ensures { MergedAsTheStandardSays }
{}
