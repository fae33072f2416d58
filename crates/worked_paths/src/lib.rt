//! Tests of what is judged: paths with their verdicts and witnesses, the index of hops, and the store of routes; and of its maps.
//!
//! The tables are texts that `reading` reads, with expected values worked out by hand. `judgements` judges paths in a small world, with their
//! witnesses, `as_lists` makes lists of six to nine ASes, `long_chains` the longest path there is, `confirming` puts claims to the checker,
//! `hops` looks up hops, `copies` copies what a change of the table answers, `held_routes` and `words` put a map of routes and one of words
//! beside ordered maps, `many_peers` has 65,535 peers of one route each, `routes` asks a store of routes, and `listed_routes` lists one.
//! `quiet` replays half a million events that each touch one route among 200,000, `quiet_moments` as many moments that end or revive one
//! attestation among 200,000, `quiet_marks` asks after each of as many events what changed (all by `replaying`), and the contracts of `ticks`
//! say how many judgements each event of a row takes. `compared` judges all routes of plain lists (`plain`) from scratch after each of 2,000
//! drawn events (`drawing`, `drawn_events`), and compares these with the store's.
#![tactic(auto)]

#[cfg(test)]
mod as_lists;
#[cfg(test)]
mod compared;
#[cfg(test)]
mod confirming;
#[cfg(test)]
mod copies;
#[cfg(test)]
mod drawing;
#[cfg(test)]
mod drawn_events;
#[cfg(test)]
mod held_routes;
#[cfg(test)]
mod hops;
#[cfg(test)]
mod judgements;
#[cfg(test)]
mod ladder;
#[cfg(test)]
mod listed_routes;
#[cfg(test)]
mod long_chains;
#[cfg(test)]
mod many_peers;
#[cfg(test)]
mod plain;
#[cfg(test)]
mod quiet;
#[cfg(test)]
mod quiet_marks;
#[cfg(test)]
mod quiet_moments;
#[cfg(test)]
mod reading;
#[cfg(test)]
mod replaying;
#[cfg(test)]
mod routes;
#[cfg(test)]
mod ticks;
#[cfg(test)]
mod words;
#[cfg(test)]
mod world;
