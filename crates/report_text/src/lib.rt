//! The lines that the program reports with.
//!
//! The layer above uses one contract: **each `put_` call appends the one line that it names, whole, or leaves the text as it was.**
//! [`put_refusal`] reports a refusal, [`put_feed`] a feed's end or a router's, [`put_row`] a route's verdict, [`put_detail`] that with what
//! shows it and the path, [`put_origin`] the state of the route's origin, [`put_leak`] what Only-to-Customer shows of it, [`put_change`] a
//! route whose verdict changed, [`put_changed`] how many changed, [`put_why`] why a path has its verdict, [`put_suspect`] a valley of paths,
//! [`put_silent`] an AS that attests nothing and is asked about, [`put_summary`] how many there are of each, [`put_peer_summary`] a peer's
//! role and how many of its routes are valid, [`put_own`] how our own routes stand, [`put_neighbour`] what two neighbours attest of each
//! other, [`put_served`] what came of serving routers, and [`put_said`] what the script wants said. [`put_hop`] says what the ASes of a hop
//! attest of each other, [`put_assertion`] asserts in a script's line what a customer attests, and the calls of `attested` say where its row
//! comes from. `refusal_text` of `specs/Refusals.antt`, the `.._text` of `Feeds`, `Rows`, `Details`, `Origins`, `Leaks`, `Change`, `Why`,
//! `Hops`, `Assertions`, `Suspects`, `Silent`, `Summary`, `PeerSummaries`, `Own`, `Neighbours`, `Served` and `Sayings`, and the `.._line` of
//! `Attested` are those lines:
//! begin there, and at `specs/Causes.antt`, the table of causes with their numbers and words. Rows, details, origins, leaks and changes begin
//! with the route's key (`specs/Keys.antt`), its path identifier included; [`PeerLines`] writes them one after another, and a peer's text once
//! for all of its lines that follow one another (`line` and `digits` write into its room). Whatever is refused and however a feed or a router
//! ends, the line is one line that begins with `! `, and no other line begins so (`laws`): who reads the program's output finds each of them
//! by its first two bytes.
#![tactic(auto)]

mod assertion;
mod attested;
mod authority;
mod cause;
mod change;
mod count;
mod detail;
mod digits;
mod feed;
mod hop;
mod key;
mod laws;
mod leak;
mod line;
mod neighbour;
mod origin;
mod own;
mod peer_lines;
mod peer_summary;
mod place;
mod refusal;
mod row;
mod said;
mod served;
mod silent;
mod summary;
mod suspect;
mod why;

pub use assertion::put_assertion;
pub use attested::{LocalPart, put_asserted, put_current_row, put_filtered, put_source};
pub use cause::Cause;
pub use change::{put_change, put_changed};
pub use detail::put_detail;
pub use feed::{FeedEnd, put_feed};
pub use hop::{Hop, put_hop};
pub use laws::{
    each_feed_end_is_one_line, each_refusal_is_one_line, no_answer_reads_as_a_refusal,
    no_attested_line_reads_as_a_refusal,
};
pub use leak::put_leak;
pub use neighbour::{Neighbour, put_neighbour};
pub use origin::put_origin;
pub use own::put_own;
pub use peer_lines::PeerLines;
pub use peer_summary::{PeerSummary, put_peer_summary};
pub use place::Place;
pub use refusal::put_refusal;
pub use row::put_row;
pub use said::put_said;
pub use served::put_served;
pub use silent::{SilentAs, put_silent};
pub use summary::{Summary, put_summary};
pub use suspect::{Suspect, put_suspect};
pub use why::put_why;
