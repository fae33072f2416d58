//! PDUs of the RPKI to Router Protocol over connections: asking one for its next PDU, and sending on it.
//!
//! The layers above speak with caches as clients, and with routers as a cache. They use [`next_pdu`], which takes the next PDU that a
//! connection gives and tells the end of its bytes from a receive that failed, and [`send_or_close`] and [`finish`], which send bytes
//! whole unless the connection breaks. What each call leaves of its connection, whatever becomes of that later, is said in
//! `specs/Moves.antt` in the words of `specs/Connection.antt` and `specs/Ends.antt`: begin reading there. `specs/World.antt` says what the
//! attempts and the connections come to until a run ends, and `specs/Faults.antt` that one breaks only where the count of faults rose.
//!
//! `asking` receives PDUs, `sending` sends replies, queries and error reports, and `refusing` names the cause of a refused PDU. Lemmas for
//! the proofs above are in `proofs/`: `ConnectionLemmas` for one connection, `NewLemmas` for one that was made, `StandingLemmas` for one
//! that may be used, `NextLemmas` and `RefusedLemmas` for what comes next, `FaultsLemmas` for the count of faults, and `GoingLemmas` for the
//! end of the run.
#![tactic(auto)]

mod asking;
mod refusing;
mod sending;

pub use asking::{Asked, next_pdu};
pub use refusing::refusal;
pub use sending::{finish, send_or_close, spell, spell_report};
