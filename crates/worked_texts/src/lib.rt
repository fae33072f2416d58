//! Tests of the outside in memory, and of texts: what is spelled, written and read as a line.
//!
//! Each table has its expected values worked out by hand. `outside` calls the forms in memory, `texts` spells and writes,
//! `peer_lines` writes rows and changes behind the text of their peers, `origins` writes the states of origins, `leaks` what
//! Only-to-Customer shows, `details` verdicts with what shows them, valleys of paths and what is said, `connections` what comes of feeds and
//! routers, `places` reads hosts with ports, `any_prefixes` reads prefixes as others write them, and `readings` reads lines of scripts by
//! themselves, those of `lines`.
#![tactic(auto)]

#[cfg(test)]
mod any_prefixes;
#[cfg(test)]
mod connections;
#[cfg(test)]
mod details;
#[cfg(test)]
mod leaks;
#[cfg(test)]
mod lines;
#[cfg(test)]
mod origins;
#[cfg(test)]
mod outside;
#[cfg(test)]
mod peer_lines;
#[cfg(test)]
mod places;
#[cfg(test)]
mod readings;
#[cfg(test)]
mod texts;
