//! Laws of readings: the contract of each function is the law, and its body does nothing.
ghost use Rattle.bgp_update.specs.Laws.{EachMessageHasOneReading, EachAnnouncementHasItsNote};

/// Each message has exactly one reading.
pub fn each_message_has_one_reading()
    ensures { EachMessageHasOneReading }
{}

/// What a message says has one note for each announcement, in order.
pub fn each_announcement_has_its_note()
    ensures { EachAnnouncementHasItsNote }
{}
