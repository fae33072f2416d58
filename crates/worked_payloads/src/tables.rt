//! The table of what attests: what a change moves, and how many give a customer its providers.
use attestations::Terms;
use path_model::{AsList, Name, Patch};
use std::alloc::Global;
use vap_table::{Moves, TableChange, Tally, Vaps};

const CUSTOMER: u32 = 64_496;

// The source of this name has these attestations, all of the customer, each with its end.
fn replace(alloc: Global, name: &[u8], held: &[(&[u32], Option<u32>)]) -> Option<TableChange> {
    let mut terms = Terms::new(alloc);
    for (providers, until) in held {
        terms.unite(CUSTOMER, providers, *until).ok()?;
    }
    match Name::new(alloc, name) {
        Ok(Some(name)) => Some(TableChange::Replace(name, terms)),
        _ => None,
    }
}

// In the source of this name the customer has this row, or none.
fn patch(alloc: Global, name: &[u8], row: Option<&[u32]>) -> Option<TableChange> {
    let row = match row {
        Some(row) => Some(AsList::from_slice(alloc, row).ok()?),
        None => None,
    };
    let mut patch = Patch::new(alloc);
    patch.set(CUSTOMER, row).ok()?;
    match Name::new(alloc, name) {
        Ok(Some(name)) => Some(TableChange::Patch(name, patch)),
        _ => None,
    }
}

// The changes of the tests, in their order from 1: two sources, a filter, and an assertion of 0, which are taken back one after another.
fn change(alloc: Global, step: u32) -> Option<TableChange> {
    match step {
        1 => replace(alloc, b"a", &[(&[64_497], None)]),
        2 => replace(alloc, b"b", &[(&[64_498], None)]),
        3 => Some(TableChange::Filter(CUSTOMER)),
        4 => replace(alloc, b"a", &[]),
        5 => match AsList::from_slice(alloc, &[0]) {
            Ok(list) => Some(TableChange::Assert(CUSTOMER, list)),
            Err(_) => None,
        },
        6 => Some(TableChange::Unfilter(CUSTOMER)),
        7 => Some(TableChange::Unassert(CUSTOMER)),
        8 => replace(alloc, b"b", &[]),
        _ => None,
    }
}

// Changes over attestations that end, in their order from 9: one source with three, of which two have ends; a second one with one of these; moments
// forwards and back; a patch in the place of all that the first one has, and the moment of all ends.
fn ending_change(alloc: Global, step: u32) -> Option<TableChange> {
    match step {
        9 => replace(
            alloc,
            b"a",
            &[
                (&[64_497], Some(100)),
                (&[64_498], Some(200)),
                (&[64_497], None),
            ],
        ),
        10 => replace(alloc, b"b", &[(&[64_497], Some(100))]),
        11 => Some(TableChange::At(99)),
        12 => Some(TableChange::At(100)),
        13 => Some(TableChange::At(u32::MAX)),
        14 => Some(TableChange::At(199)),
        15 => patch(alloc, b"a", Some(&[64_499])),
        16 => Some(TableChange::At(0)),
        17 => patch(alloc, b"a", None),
        18 => Some(TableChange::At(100)),
        _ => None,
    }
}

// The table after one more change, and what that moved.
fn changed(alloc: Global, vaps: Vaps, step: u32) -> Option<(Vaps, Moves)> {
    let change = if step <= 8 {
        change(alloc, step)?
    } else {
        ending_change(alloc, step)?
    };
    vaps.change(change).ok()
}

// The table after this change and all before it, and what it moved.
fn after(alloc: Global, last: u32) -> Option<(Vaps, Moves)> {
    let mut vaps = Vaps::new(alloc);
    for step in 1..last {
        vaps = changed(alloc, vaps, step)?.0;
    }
    changed(alloc, vaps, last)
}

// Whether a row is this one, or there is none.
fn is_row(row: Option<&AsList>, wanted: Option<&[u32]>) -> bool {
    match (row, wanted) {
        (None, None) => true,
        (Some(row), Some(wanted)) => row.as_slice() == wanted,
        _ => false,
    }
}

// Whether the customer alone moved, from the one row to the other.
fn moved(moves: &Moves, before: Option<&[u32]>, after: Option<&[u32]>) -> bool {
    match (moves.len(), moves.get(0)) {
        (1, Some(only)) => {
            only.customer == CUSTOMER
                && is_row(only.before.as_ref(), before)
                && is_row(only.after.as_ref(), after)
        }
        _ => false,
    }
}

// A change, and the customer's rows before it and after it.
type Moved = (u32, Option<&'static [u32]>, Option<&'static [u32]>);

fn are_moved(alloc: Global, rows: &[Moved]) -> bool {
    for (step, before, behind) in rows {
        if !after(alloc, *step).is_some_and(|(_, moves)| moved(&moves, *before, *behind)) {
            return false;
        }
    }
    true
}

const MOVED: [Moved; 3] = [
    (3, Some(&[64_497, 64_498]), None),
    (5, None, Some(&[])),
    (6, Some(&[]), Some(&[64_498])),
];

#[test]
fn moves_exactly_what_a_change_moved(rt: HostRuntime) {
    assert!(rt; are_moved(rt.alloc(), &MOVED));
}

const MOVED_BY_ENDS: [Moved; 6] = [
    (13, Some(&[64_497, 64_498]), Some(&[64_497])),
    (14, Some(&[64_497]), Some(&[64_497, 64_498])),
    (15, Some(&[64_497, 64_498]), Some(&[64_499])),
    (16, Some(&[64_499]), Some(&[64_497, 64_499])),
    (17, Some(&[64_497, 64_499]), Some(&[64_497])),
    (18, Some(&[64_497]), None),
];

#[test]
fn moves_what_ends_and_what_is_alive_again(rt: HostRuntime) {
    assert!(rt; are_moved(rt.alloc(), &MOVED_BY_ENDS));
}

#[test]
fn moves_nothing(rt: HostRuntime) {
    for step in [4, 7, 10, 11, 12] {
        assert!(rt; after(rt.alloc(), step).is_some_and(|(_, moves)| moves.is_empty()));
    }
}

// A number, and how many sources and assertions give it.
type Given = (u32, u64, u64);

fn are_given(tally: &Tally, wanted: &[Given]) -> bool {
    for (one, want) in tally.given.iter().zip(wanted.iter()) {
        if (one.provider, one.sources, one.assertions) != *want {
            return false;
        }
    }
    tally.given.len() == wanted.len()
}

// A change, how many sources and assertions are counted behind it, and the numbers that they give.
type Counted = (u32, u64, u64, &'static [Given]);

fn is_counted(vaps: &Vaps, sources: u64, assertions: u64, given: &[Given]) -> bool {
    match vaps.tally(CUSTOMER) {
        Some(tally) => {
            tally.sources == sources && tally.assertions == assertions && are_given(tally, given)
        }
        None => false,
    }
}

fn are_counted(alloc: Global, rows: &[Counted]) -> bool {
    for (step, sources, assertions, given) in rows {
        let found = after(alloc, *step);
        if !found.is_some_and(|(vaps, _)| is_counted(&vaps, *sources, *assertions, given)) {
            return false;
        }
    }
    true
}

const COUNTED: [Counted; 4] = [
    (3, 2, 0, &[(64_497, 1, 0), (64_498, 1, 0)]),
    (4, 1, 0, &[(64_498, 1, 0)]),
    (5, 1, 1, &[(0, 0, 1), (64_498, 1, 0)]),
    (7, 1, 0, &[(64_498, 1, 0)]),
];

#[test]
fn counts_who_gives_each_provider(rt: HostRuntime) {
    assert!(rt; are_counted(rt.alloc(), &COUNTED));
}

const ALIVE: [Counted; 7] = [
    (9, 3, 0, &[(64_497, 2, 0), (64_498, 1, 0)]),
    (10, 4, 0, &[(64_497, 3, 0), (64_498, 1, 0)]),
    (12, 2, 0, &[(64_497, 1, 0), (64_498, 1, 0)]),
    (13, 1, 0, &[(64_497, 1, 0)]),
    (15, 1, 0, &[(64_499, 1, 0)]),
    (16, 2, 0, &[(64_497, 1, 0), (64_499, 1, 0)]),
    (17, 1, 0, &[(64_497, 1, 0)]),
];

#[test]
fn counts_what_is_alive(rt: HostRuntime) {
    assert!(rt; are_counted(rt.alloc(), &ALIVE));
}

#[test]
fn counts_nothing(rt: HostRuntime) {
    for step in [8, 18] {
        assert!(rt;
            after(rt.alloc(), step).is_some_and(|(vaps, _)| vaps.tally(CUSTOMER).is_none())
        );
    }
}
