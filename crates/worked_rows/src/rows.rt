//! Files of rows, each row performed in each of its turns.
use crate::given::Given;
use crate::runs::outcome;
use crate::spelling::{number_of, parted};
use crate::trouble::Trouble;
use crate::vectors::{Named, Turn, Vectors};
use crate::wanted::Wanted;
use std::alloc::Global;
use std::fs;
use std::rt::Files;

/// How many rows there were, how many runs, and how many of these didn't end as wanted.
#[derive(Clone, Copy)]
pub struct Tally {
    pub rows: u32,
    pub runs: u32,
    pub failed: u32,
}

/// Adds the vectors of a file, and performs its rows.
pub fn perform_file(
    rt: &(impl Print + Files + AllocGlobal),
    alloc: Global,
    text: &str,
    vectors: &mut Vectors,
    tally: &mut Tally,
) -> Result<(), Trouble> {
    let mut row = Vec::new(alloc);
    for line in text.lines() {
        if line.is_empty() {
            perform_row(rt, alloc, &row, vectors, tally)?;
            row.clear();
        } else if let Some(definition) = line.strip_prefix("let ") {
            vectors.define(definition)?;
        } else if let Some(definition) = line.strip_prefix("join ") {
            vectors.join(definition)?;
        } else if let Some(definition) = line.strip_prefix("numbers ") {
            vectors.number(definition)?;
        } else if let Some(place) = line.strip_prefix("load ") {
            load(rt, alloc, place, vectors)?;
        } else if !line.starts_with('#') {
            row.push(line)?;
        }
    }
    perform_row(rt, alloc, &row, vectors, tally)
}

// Adds a vector that stands in a file of its own: its name, and the file's.
fn load(
    rt: &(impl Files + AllocGlobal),
    alloc: Global,
    place: &str,
    vectors: &mut Vectors,
) -> Result<(), Trouble> {
    let (name, path) = parted(place, ' ')?;
    vectors.add(Named {
        name: String::from_str(alloc, name)?,
        bytes: fs::read(rt, path)?,
    })
}

// Performs a row in each of its turns, and prints where it isn't as wanted.
fn perform_row(
    rt: &impl Print,
    alloc: Global,
    row: &[&str],
    vectors: &Vectors,
    tally: &mut Tally,
) -> Result<(), Trouble> {
    let Some(title) = row.first() else {
        return Ok(());
    };
    tally.rows = tally.rows.saturating_add(1);
    let (first, last) = turns_of(row)?;
    for number in first..=last {
        tally.runs = tally.runs.saturating_add(1);
        if let Some(part) = difference(alloc, row, vectors, number)? {
            tally.failed = tally.failed.saturating_add(1);
            let rows = tally.rows;
            println!(rt; "row {rows}, turn {number}: {part}: {title}")?;
        }
    }
    Ok(())
}

// The first and the last turn. A row without a line of them has one.
fn turns_of(row: &[&str]) -> Result<(usize, usize), Trouble> {
    for line in row {
        if let Some(turns) = line.strip_prefix("turns ") {
            let (first, last) = parted(turns, ' ')?;
            return Ok((number_of(first)?, number_of(last)?));
        }
    }
    Ok((1, 1))
}

// Performs a turn of a row, and answers in what it isn't as wanted.
fn difference(
    alloc: Global,
    row: &[&str],
    vectors: &Vectors,
    number: usize,
) -> Result<Option<&'static str>, Trouble> {
    let mut given = Given::new(alloc)?;
    let mut wanted = Wanted::new(alloc);
    for line in row {
        let (key, rest) = line.split_once(' ').unwrap_or((line, ""));
        let moved = given.moved_before(number);
        let turn = Turn { number, moved };
        let is_known = key == "turns"
            || given.take(key, rest, vectors, turn)?
            || wanted.take(key, rest, vectors, turn)?;
        if !is_known {
            return Err(Trouble::Line);
        }
    }
    let ended = outcome(alloc, &given)?;
    Ok(wanted.difference(&ended))
}
