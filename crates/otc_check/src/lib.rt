//! Which routes Only-to-Customer shows to be leaked (RFC 9234).
//!
//! A route with the attribute may only go to customers from the AS on that the attribute names. The layers above use two contracts:
//! **[`leak`] tells what the attribute shows of a route from a neighbour of some role, exactly as the procedure of RFC 9234, section 5, for
//! what is received, and [`Marks`] holds for each route the attribute of its last announcement.** [`Marks::apply`] performs the changes of
//! a message or record with the notes of its announcements, one each in order; [`Marks::of`] and [`Marks::iter`] read. A malformed
//! attribute is a mark of its own.
//!
//! Begin reading in `specs/Leak.antt`, and then in `specs/Marks.antt`, which says what changes make of marks; `laws` says it once more by
//! the last announcement of each route, and that only keys with a route have a mark. `noting` performs the changes.
#![tactic(auto)]

mod laws;
mod marks;
mod marks_iter;
mod noting;
mod procedure;

pub use laws::{
    each_case_has_one_leak, marks_are_of_last_announcements, marks_are_of_routes, marks_go_on,
    marks_go_with_their_routes,
};
pub use marks::Marks;
pub use marks_iter::MarksIter;
pub use path_model::Leak;
pub use procedure::leak;
