//! The reading of a script's line: what it asks for, or why it is refused.
//!
//! The layer above uses one contract, that of [`read`]: what it answers is the line's reading, unless there was no memory. What a
//! line is says `specs/Grammar.antt`, by a table with one row a command (`specs/Commands.antt`): its word, the form of the words after
//! it, and what their values make. Begin reading with that table, of which `commands` is the code. The kinds of words stand in
//! `specs/Kinds.antt`, how they follow one another in `specs/Forms.antt`, and the conditions of `routes` in `specs/Conditions.antt`. The module `laws` says that each line has exactly one
//! reading; a proof above takes it from `proofs/LawLemmas.antt`.
#![tactic(auto)]

mod commands;
mod condition_words;
mod fault;
mod fields;
mod grammar;
mod kinds;
mod laws;
mod saying;
mod word;

pub use commands::Command;
pub use fault::LineFault;
pub use grammar::read;
pub use laws::each_line_has_one_reading;
pub use saying::Saying;
pub use word::Word;
