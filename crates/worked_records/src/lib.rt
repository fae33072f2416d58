//! Tests of the readers of dumps and of BMP streams: path attributes, messages and records.
//!
//! Each table has its expected values worked out by hand, or, for the dumps that routing daemons wrote, by `bgpdump`; what is refused is
//! said by the readers' contracts alone. `attributes` reads attribute fields and `lists` prefixes in them, `records` streams of records,
//! whose changes are compared one by one (`comparing`), `identifiers` records with path identifiers, and `daemons` whole dumps of two
//! daemons. `monitoring` reads the messages of BMP streams, `notes` what attribute fields, records and messages say of
//! Only-to-Customer, and `marks` what records make of the marks of routes.
#![tactic(auto)]

#[cfg(test)]
mod attributes;
#[cfg(test)]
mod comparing;
#[cfg(test)]
mod daemons;
#[cfg(test)]
mod hex;
#[cfg(test)]
mod identifiers;
#[cfg(test)]
mod lists;
#[cfg(test)]
mod marks;
#[cfg(test)]
mod monitoring;
#[cfg(test)]
mod notes;
#[cfg(test)]
mod records;
