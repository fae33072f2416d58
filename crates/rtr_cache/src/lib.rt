//! A cache of the RPKI to Router protocol, version 2: the versions of a table that it serves, and its reply to each PDU.
//!
//! The protocol is RFC 8210 with the changes of draft-ietf-sidrops-8210bis. The contracts that the layer above uses are those of
//! [`Cache`]: [`Cache::new`] and [`Cache::update`] take the current table of a `Vaps` as a version (`specs/Cache.antt`: `IsMade`,
//! `Updates`), where [`fits_pdus`] says that its rows fit PDUs, and [`Cache::answer`] appends the bytes of the one reply to a PDU
//! (`specs/Served.antt`: `IsReply`, `Answers`). The laws in `laws` say what comes of it: whatever updates and queries came before, a
//! router that asks and takes the reply as `rtr_session` does holds exactly the current table.
//!
//! Begin reading at `specs/Cache.antt`, then at `specs/Served.antt` and `specs/Laws.antt`. The contracts see whole tables; `cache` keeps
//! one of them, and for each older version what leads back to it (`specs/Kept.antt`; lent to a reply as `kept`). `following` makes the next
//! version, with `rows` for one customer; `answering` replies, with `telling` for what is told of rows.
#![tactic(auto)]

mod answering;
mod cache;
mod fitting;
mod following;
mod kept;
mod laws;
mod rows;
mod telling;
mod turn;

pub use cache::Cache;
pub use fitting::fits_pdus;
pub use laws::{
    each_pdu_has_one_reply, each_reply_is_taken, routers_follow_the_table, routers_get_the_table,
};
pub use turn::Turn;
