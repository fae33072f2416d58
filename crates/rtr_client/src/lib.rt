//! What one line of a script does with a feed: the program as a client of RPKI caches.
//!
//! The layer above uses two contracts. [`connect`] performs a `feed` line: it closes the feed's old connection, connects, and asks for
//! everything. [`work`] performs an `ask`, `take` or `sync` line on the feed of a name. Both are lent the run's `Progress`, of which they
//! change the count of refusals, and `work` the analysis and the origin records too. What they do and report is defined in
//! `specs/Lines.antt`, over what one PDU and several make of a feed (`specs/Feeds.antt`): begin reading there. Each relation reads the
//! connection as it stands when the run ends, so what is proved of a line stays true whatever the later lines do; how the [`Feeds`] that
//! are held stand for those of the definitions is said in `specs/Holding.antt`. What the events may cost in judgements is counted, and
//! a line takes no more steps, whether it ends well or not. Two outcomes of a line on the same connections are the same one, each
//! thing that is reported is one line of text, and a feed is lost only where its connection broke or nothing more is to come; and where a
//! session is ready, the source of the feed's name has exactly its payloads in the origin records (`laws`).
//!
//! `connection_calls` below asks a connection for PDUs and sends on it. `spelling` spells queries, `taking` takes PDUs one after another,
//! `changing` makes what they change of the analysis and of the origin records, `working` performs what a line asks of a feed that goes on,
//! `named` finds it by its name, `connecting` starts one, and `lines` writes what is reported. Lemmas for the proofs above are in `proofs/`:
//! `LawLemmas`, `LostLemmas` and `TiedLemmas` for the laws.
#![tactic(auto)]

mod changing;
mod connecting;
mod feed;
mod laws;
mod lines;
mod named;
mod spelling;
mod taking;
mod telling;
mod working;

pub use feed::Feeds;
pub use laws::{
    each_telling_is_one_line, feed_lines_have_one_outcome, feeds_have_their_payloads,
    lost_feeds_broke_or_ended,
};
pub use lines::{connect, work};
pub use telling::{Asker, Telling};
pub use working::Work;
