//! The text layer: how values are read from a line and written to one, and how a text is cut into lines and words.
//!
//! The layer above uses one contract: **each value has one spelling**. What `read_addr` answers is an address exactly where the text
//! is `addr_text` of it, the very bytes that `put_addr` appends, and `None` exactly where the text spells no address; the same holds
//! of numbers, prefixes, roles and names. What a `put_` call fails to append whole it leaves out whole. `spellings_differ` says that
//! no two values share a spelling, `texts_spell_one_or_none` that each text is told, and `no_line_feeds` that a value's text stays
//! within its line.
//!
//! Begin with `specs/Number.antt` and `specs/AddressText.antt`, which say how a number and an address are written, and with
//! `specs/Words.antt` and `specs/Lines.antt`. What a proof above cites of texts stands in `proofs/`: `SpellingLemmas` and
//! `AnySpellingLemmas` (a text spells one value or none), `LackLemmas`, `LineLemmas`, `WordLemmas`.
#![tactic(auto)]

mod address_text;
mod groups;
mod host_port;
mod lines;
mod marks;
mod name_text;
mod number;
mod octets;
mod peer_text;
mod pieces;
mod prefix_text;
mod role_text;
mod spellings;
mod splitting;
mod verdict_text;

pub use address_text::{put_addr, read_addr};
pub use host_port::{HostPort, read_host_port};
pub use lines::next_line;
pub use marks::cut;
pub use name_text::read_name;
pub use number::{put_u64, read_u32};
pub use peer_text::put_peer;
pub use pieces::Words;
pub use prefix_text::{put_prefix, read_prefix};
pub use role_text::read_role;
pub use spellings::{no_line_feeds, spellings_differ, texts_spell_one_or_none};
pub use splitting::words;
pub use verdict_text::put_verdict;
