//! What one line of a script does as a cache: it serves routers with the current table (RFC 8210, section 8).
//!
//! The layer above uses the contract of [`serve`]: it accepts routers at a place, one after another, answers the PDUs of each until its
//! connection ends, and reports what came of it as it comes. What that is is defined in `specs/Routers.antt`, over what comes of one router
//! (`specs/Serving.antt`) and the text of it (`specs/Outcomes.antt`): begin reading at `specs/Serving.antt`. Each relation reads the
//! connections as they stand when the run ends, so what is proved of a line stays true whatever the later lines do. The replies are
//! those of the table in `rtr_cache`.
//!
//! `connection_calls` below asks a connection for PDUs and sends on it. `serving` answers one router, `telling` writes what came of it,
//! and `routers` serves one after another.
#![tactic(auto)]

mod laws;
mod outcome;
mod routers;
mod serving;
mod telling;

pub use laws::{lost_routers_broke, routers_have_one_outcome, serve_lines_have_one_outcome};
pub use outcome::{Outcome, Refusal, RouterEnd};
pub use routers::{Served, Service, serve};
