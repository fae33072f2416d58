//! Prefixes as RFC 4291, section 2.2, lets them be written, as a SLURM file has them (RFC 8416).
//!
//! `av_text` reads and writes the one spelling that this program prints of each value; others spell an IPv6 address in many ways. The layer
//! above uses one contract: `read_any_prefix` answers a prefix exactly where the text spells it in some form, and `None` exactly where it
//! spells none; no text spells two. Begin reading in `specs/AnyAddress.antt`.
#![tactic(auto)]

mod address;
mod group;
mod prefix;
mod run;

pub use prefix::read_any_prefix;
