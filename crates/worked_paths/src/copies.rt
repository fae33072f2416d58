//! What a change of the table answers, and its tally, copied.
use av_base::NoMemory;
use path_model::AsList;
use std::alloc::Global;
use vap_table::{GivenList, Moves, TableChange, Vaps};

// The table in which 64500 attests 64501, and what moved.
fn asserted(alloc: Global) -> Result<(Vaps, Moves), NoMemory> {
    let providers = AsList::from_slice(alloc, &[64501])?;
    Vaps::new(alloc).change(TableChange::Assert(64500, providers))
}

// Whether 64500 alone moved, from no row to one of 64501.
fn has_moved(moves: &Moves) -> bool {
    let Some(row_move) = moves.get(0) else {
        return false;
    };
    let Some(after) = &row_move.after else {
        return false;
    };
    moves.len() == 1
        && row_move.customer == 64500
        && row_move.before.is_none()
        && after.as_slice() == [64501].as_slice()
}

// Whether one assertion gives 64501, and nothing gives another one.
fn is_given(given: &GivenList) -> bool {
    let Some(first) = given.get(0) else {
        return false;
    };
    given.len() == 1 && first.provider == 64501 && first.sources == 0 && first.assertions == 1
}

// Whether the copies of both are as they should be.
fn are_copied(table: &Vaps, moves: &Moves) -> Result<bool, NoMemory> {
    let Some(tally) = table.tally(64500) else {
        return Ok(false);
    };
    let moves = moves.copy()?;
    let given = tally.given.copy()?;
    Ok(has_moved(&moves) && is_given(&given))
}

#[test]
fn copies(rt: HostRuntime) -> Result<(), NoMemory> {
    let (table, moves) = asserted(rt.alloc())?;
    let are_right = matches!(are_copied(&table, &moves), Ok(true));
    assert!(rt; are_right);
    Ok(())
}
