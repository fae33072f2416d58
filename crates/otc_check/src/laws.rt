//! Laws of the definitions: the contract of each function is the law, and its body does nothing.
ghost use Rattle.otc_check.specs.Laws.{EachCaseHasOneLeak, MarksAreOfLastAnnouncements, MarksAreOfRoutes};
ghost use Rattle.otc_check.specs.Laws.{MarksGoOn, MarksGoWithPeers, MarksGoWithWithdrawals, OtherMarksStay};

/// For every role, neighbour and attribute there is exactly one leak.
pub fn each_case_has_one_leak()
    ensures { EachCaseHasOneLeak }
{}

/// After any list of changes a route has the attribute of its last announcement: the note whose index is the number of announcements
/// before that one.
pub fn marks_are_of_last_announcements()
    ensures { MarksAreOfLastAnnouncements }
{}

/// A key has no mark after its route was withdrawn or its peer's session ended, until it is announced anew, and where nothing is said of
/// it, it keeps what it had.
pub fn marks_go_with_their_routes()
    ensures withdrawn { MarksGoWithWithdrawals }
    ensures ended { MarksGoWithPeers }
    ensures others { OtherMarksStay }
{}

/// Only keys that have a route have a mark: where that is so before some changes, it is so after them.
pub fn marks_are_of_routes()
    ensures { MarksAreOfRoutes }
{}

/// The marks after many messages and records are those after all of their changes, each announcement with its own note.
pub fn marks_go_on()
    ensures { MarksGoOn }
{}
