//! The current table: which rows hold at the stated moment, from all that attests and the local filters.
//!
//! The layer above uses one contract: [`Vaps::change`] answers the table of the changed parts, with exactly the customers whose current
//! row moved. What a change makes of the parts is defined in `specs/Change.antt`; begin reading there. The current table of given parts is
//! defined in `attestations` (`CurrentTable`), and so is what moved (`Moves`).
//!
//! A change visits only the customers that it names (`naming`, `comparing`), and none where it changes nothing (`idle`). An index has the
//! last moments of the attestations that end (`lasts`, `listing`), so another moment names only the customers with an attestation that is
//! alive at one of the two moments alone. Each customer has a tally (`specs/Tally.antt`): how many alive attestations and how many
//! assertions there are of it, and which numbers they hold. [`Vaps::tally`] lends it. A change takes the rows that it replaces off the
//! tally and adds the new ones (`tallying`, `turning`, `gathering`, `tallied`, `stepping`), and the current row is read off the tally
//! (`shown`). So other sources are looked at only for another moment, and for a customer with an attestation that has an end. `current`
//! keeps the rows that the first source doesn't have as they are, and `refreshing` does so customer by customer. All current rows stand once
//! more in one list (`quick_rows`), for the look-ups of judgements, and a filter tells most customers without one (`filter`). [`Vaps::entries`]
//! lends the current rows one after another (`entries`), and what each part has of a customer is lent too (`asked`).
//!
//! How that is proved: a customer that a change doesn't name has the same row in both tables (`NamingLemmas`, `ComparingLemmas` of `proofs/`).
//! Between two moments an attestation begins or ends to be alive only at a last moment between them (`LastsLemmas`). Rows more or less make
//! of a tally that of the new parts (`SteppingLemmas`, `CountingLemmas`, `TurningLemmas`, `TallyingLemmas`, `TalliesLemmas`). The row that is
//! read off it is the current one (`ShownLemmas`). The moves of some customers, among them all that moved, are the moves (`CurrentLemmas`,
//! `MovesLemmas` of `attestations`).
#![tactic(auto)]

mod asked;
mod change;
mod comparing;
mod current;
mod customers;
mod entries;
mod filter;
mod gathering;
mod idle;
mod lasts;
mod laws;
mod listing;
mod naming;
mod parts;
mod quick_rows;
mod refreshing;
mod searching;
mod shown;
mod sources;
mod stepping;
mod tallied;
mod tallies;
mod tally;
mod tallying;
mod turning;
mod vaps;

pub use attestations::{Moves, RowMove};
pub use change::TableChange;
pub use entries::Entries;
pub use laws::changes_have_one_outcome;
pub use tally::{Given, GivenList, Tally};
pub use vaps::Vaps;
