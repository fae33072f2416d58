//! What changed since verdicts were marked.
ghost use Rattle.std.specs.Prelude.{◌≡◌};
ghost use Rattle.std.specs.Iterator.{YieldsFirst, YieldsFirstBy, item_count};
ghost use Rattle.std.specs.List.{filter_map};
ghost use Rattle.std.specs.Option.{option_map};
ghost use Rattle.shared_cases.specs.Cases.{at, marked_or, verdict_or};
ghost use Rattle.rib_store.specs.ChangesLeft.{change_between, changed, changes_left, row_change};
ghost use Rattle.rib_store.specs.Merge.{marked_of, merged_left};

use crate::merged::{Merged, Row};
use path_model::{Key, Verdict};
use route_map::{Iter, RouteMap};
use shared_cases::SharedCases;

/// A key whose verdict or presence differs from the marked one.
#[derive(Clone, Copy, Debug, PartialEq, Eq)]
pub struct ChangedKey {
    /// The key.
    pub key: Key,
    /// The verdict that was marked; `None` where the key had no route then.
    pub before: Option<Verdict>,
    /// The current verdict; `None` where the key has no route.
    pub after: Option<Verdict>,
}

// What a list of changes has still to go over.
#[derive(Drop)]
pub(crate) enum Left<'a> {
    // all notes and routes
    OfAll(Merged<'a>),
    // the notes alone, where each key that may have changed has one
    OfNotes(Iter<'a, Option<Verdict>>),
}

/// The changed keys in key order. It judges nothing, and takes no memory. Where the keys of the cases that got another verdict are gathered,
/// each key whose route changed since the mark, or whose case got another verdict, takes a step and a look-up among the routes; else, and before
/// the first mark, each route and each noted key takes a step.
#[derive(Drop)]
pub struct Journal<'a> {
    pub(crate) left: Left<'a>,
    pub(crate) routes: &'a RouteMap<u32>,
    pub(crate) cases: &'a SharedCases,
    // whether verdicts were ever marked
    pub(crate) is_marked: bool,
}

impl<'a> Iterator for Journal<'a> {
    type Item = ChangedKey;

    ghost next_gives = { YieldsFirstBy (λ change. change) changes_left };

    ghost remaining = { item_count changes_left };

    fn next(&mut self) -> Option<ChangedKey> {
        match &mut self.left {
            Left::OfAll(merged) => next_row(merged, self.is_marked, self.cases),
            Left::OfNotes(notes) => next_changed(notes, self.routes, self.cases),
        }
    }
}

// The first change among the rows that are left.
fn next_row(merged: &mut Merged<'_>, is_marked: bool, cases: &SharedCases) -> Option<ChangedKey>
    ensures { YieldsFirst (λ left. filter_map (row_change is_marked cases.now) (merged_left left))
        merged.old result merged.new }
{
    while let Some((key, row)) = merged.next() {
        let before = marked_of(is_marked, cases, row);
        if let Some(change) = change_between(key, before, verdict_of(cases, row.case)) {
            return Some(change);
        }
    }
    None
}

// The first change among the notes that are left.
fn next_changed(
    notes: &mut Iter<'_, Option<Verdict>>,
    routes: &RouteMap<u32>,
    cases: &SharedCases,
) -> Option<ChangedKey>
    ensures { YieldsFirst (λ left. filter_map (changed routes.now cases.now) left)
        notes.old result notes.new }
{
    while let Some((key, noted)) = notes.next() {
        let after = verdict_of(cases, routes.get(&key).copied());
        if let Some(change) = change_between(key, *noted, after) {
            return Some(change);
        }
    }
    None
}

// The change of a key, if it has changed.
fn change_between(key: Key, before: Option<Verdict>, after: Option<Verdict>) -> Option<ChangedKey>
    ensures { result ≡ change_between key before after }
{
    if before == after {
        return None;
    }
    Some(ChangedKey { key, before, after })
}

// What was marked of a key.
fn marked_of(is_marked: bool, cases: &SharedCases, row: Row) -> Option<Verdict>
    ensures { result ≡ marked_of is_marked cases.now row }
{
    if !is_marked {
        return None;
    }
    match row.noted {
        Some(noted) => noted,
        None => mark_of(cases, row.case),
    }
}

// The verdict of a case, if there is one.
fn verdict_of(cases: &SharedCases, case: Option<u32>) -> Option<Verdict>
    ensures { result ≡ option_map (λ n. verdict_or (at cases.now n)) case }
{
    match case {
        None => None,
        Some(number) => Some(cases.verdict(number as usize)),
    }
}

// The marked verdict of a case, if there is one.
pub(crate) fn mark_of(cases: &SharedCases, case: Option<u32>) -> Option<Verdict>
    ensures { result ≡ option_map (λ n. marked_or (at cases.now n)) case }
{
    match case {
        None => None,
        Some(number) => Some(cases.marked(number as usize)),
    }
}
