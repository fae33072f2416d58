//! The whole program as one call: [`run`] performs a script, or a stated workload, and writes its text.
//!
//! The layer above uses one contract, that of [`run`]: for every script and whatever the shelf names, however anything is read and
//! however the text is written, what is written is the text that evaluating each line from scratch gives, and each status has its
//! cause. That text is defined in `specs/Evaluation.antt` (line by line), `specs/Task.antt` (what each command asks for), and
//! `specs/Tasks.antt` and `specs/Answers.antt` (what comes of that), over what a run meets outside (`specs/World.antt`), what a line is
//! (crate `script_lines`) and what the lines of a script are (`Lines` of `av_text`); `specs/Program.antt` says what each status means.
//! Begin reading there. What a workload writes is defined in the crate `stated_workload` (`Text`).
//!
//! `program` has the top call, and `words` says which form the program's words have. `script` reads a script piece by piece, and `evaluation`
//! performs the whole lines that have come, and writes their text. `line` has one line read, asks `task` what its command asks for, and calls
//! one function for that. These stand in `memory` (what needs nothing else: `judge` by `judgement`), `tables` and `files` (files), `dumps`,
//! `feeds`, `routers`, `answers` (questions) and `changes`. `effects` has what several of them do to the `Working` that goes from line to
//! line. `demo` performs a workload.
//!
//! What a call is passed is one record at each moment (`specs/Outside.antt`); `Keeps` there is what each call keeps of it, whatever comes.
//! Each function of a task has two clauses: `keeps`, and `did`, by which the line is `Done` or `EndedEarly` (`specs/Performing.antt`).
//! `StandsFor` (`specs/Standing.antt`) says of which evaluations the `Working` is what lines have left. What questions add is one lemma for
//! all (`AnswerLemmas`).
//!
//! How far a run is, these say: of one unit `TookUnit` (of `stream_lines`), of one line `Done`, of the lines so far `Performing`, between two
//! reads `ReadSoFar` (`specs/Evaluated.antt`). Where a run ends it is `Ended`, or `WentThrough`, `StopsAtFile`, `StopsWithin` or
//! `StopsAtRead` (`specs/Program.antt`). Whatever is told, `AddsLines` and `AddsFront` (of `report_text`) say that whole lines were added, or
//! a front of some.
#![tactic(auto)]

mod answers;
mod changes;
mod demo;
mod dumps;
mod effects;
mod evaluation;
mod feeds;
mod files;
mod judged;
mod judgement;
mod laws;
mod line;
mod memory;
mod outside;
mod program;
mod routers;
mod script;
mod tables;
mod task;
mod words;
mod working;

pub use laws::{
    attested_text_restores_the_table, attested_text_writes_itself,
    each_script_without_attempts_has_a_text, failed_scripts_wrote_what_had_come,
    feeds_were_connected, no_script_has_two_texts, refusals_are_counted, runs_write_fronts,
    served_routers_get_the_table, sources_have_feeds_payloads, unbroken_feeds_are_lost_at_end,
};
pub use program::{SCRIPT_LIMIT, run};
