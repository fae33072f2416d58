//! Runs of the whole program through its top call, of what no contract says: that a run does what it should.
//!
//! The rows stand in the files of `data`, read in the order of `args`; `data/README.md` says how they are written. Each gives words, a
//! script, files, what connections and callers send and which calls fail, and wants a text, what is sent, and a status, worked out by hand.
//! `rows` reads a file and performs its rows, `given` and `wanted` are what a row gives and wants, `runs` makes one run over the forms in
//! memory, `vectors` has the bytes that have names, and `spelling` reads numbers and text.
#![tactic(auto)]

mod given;
mod rows;
mod runs;
mod spelling;
mod trouble;
mod vectors;
mod wanted;

use rows::{Tally, perform_file};
use std::{env, fs};
use trouble::Trouble;
use vectors::Vectors;

fn main(rt: HostRuntime) -> Result<(), Trouble> {
    let mut vectors = Vectors::new(rt.alloc());
    let mut tally = Tally {
        rows: 0,
        runs: 0,
        failed: 0,
    };
    for name in env::args(&rt)?.skip(1) {
        let text = fs::read_to_string(&rt, name.as_str())?;
        perform_file(&rt, rt.alloc(), text.as_str(), &mut vectors, &mut tally)?;
    }
    let Tally { rows, runs, failed } = tally;
    println!(rt; "{runs} runs of {rows} rows, {failed} not as wanted")?;
    Ok(())
}
