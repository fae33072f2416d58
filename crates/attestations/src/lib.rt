//! Attestations that may end: what each source attests, the definition of the current table of a moment, and what moves where it changes.
//!
//! The layer above holds a [`Terms`] for each source, and a [`GatheredTerms`] while a file is read. It cites the definition of the current
//! table (`specs/CurrentTable.antt`) and the table that is computed (`specs/ComputedTable.antt`); that these are one table is a law of
//! `laws`. Who changes a table lists the rows that moved as [`Moves`] (`specs/Moves.antt`), and who follows it reads these alone. Begin
//! reading in `specs/Terms.antt`, and then in `specs/CurrentTable.antt`.
#![tactic(auto)]

mod attested;
mod gathered_terms;
mod laws;
mod moves;
mod term;
mod term_entries;
mod term_list;
mod term_set;
mod terms;

pub use attested::Attested;
pub use gathered_terms::GatheredTerms;
pub use laws::{computed_is_current, each_row_never_ends, parts_have_one_table};
pub use moves::{Moves, RowMove, is_same_row};
pub use term::Term;
pub use term_entries::TermEntries;
pub use terms::Terms;
