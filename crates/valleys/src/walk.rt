//! The walk along a chain that finds its valleys.
ghost use Rattle.std.specs.Prelude.{◌≡◌, ◌↔◌, ◌+◌, ◌++◌, ◌<◌, ◌≤◌, [], length, IfOk, OnOk};
ghost use Rattle.std.specs.List.{Contains};
ghost use Rattle.std.specs.List.Sorted.{IsStrictlySortedBy};
ghost use Rattle.path_model.specs.Labelling.{direction_of};
ghost use Rattle.valleys.specs.declared.valley.Valley.{Valley as AnyValley};
ghost use Rattle.valleys.specs.Order.{valley_cmp};
ghost use Rattle.valleys.specs.Valleys.{HasValley};
ghost use Rattle.valleys.specs.Walk.{IsBehind, IsPassed, climb_at, closed, closed_by, descent_at, exported, opened_by, still_open};

use crate::{Valley, ValleyList};
use av_base::NoMemory;
use path_model::{Authority, Direction, Role, Table};
use std::alloc::Global;

/// The distinct valleys of a chain that came from a neighbour of this role: its ASes from the origin on. Each hop is passed once, with two
/// look-ups. A chain without valleys takes no memory.
pub fn valleys<T: Table>(
    alloc: Global,
    table: &T,
    role: Role,
    chain: &[u32],
) -> Result<ValleyList, NoMemory>
    ensures ascending { IfOk result (IsStrictlySortedBy valley_cmp) }
    ensures exact { IfOk result (λ list. (valley : AnyValley) → Contains list valley
        ↔ HasValley (T.rows table.now) (direction_of role) chain.now valley) }
{
    let mut found = Vec::new(alloc);
    let opened = pass_all(table, chain, &mut found)?;
    export(role.direction(), chain, opened, &mut found)?;
    Ok(ValleyList::of(found))
}

// Passes all hops. The answer is the last one that refuses to climb, if no later one refuses to descend.
fn pass_all<T: Table>(
    table: &T,
    chain: &[u32],
    found: &mut Vec<Valley>,
) -> Result<Option<usize>, NoMemory>
    requires { found.old.items ≡ [] }
    ensures { IfOk result (λ opened. IsPassed (T.rows table.now) chain.now
        (length chain.now) opened found.new.items) }
{
    let mut opened = None;
    for hop in 1..chain.len() {
        let still = descend(table, chain, hop, opened, found)?;
        opened = climb(table, chain, hop, still);
    }
    Ok(opened)
}

// Ends the valley of the open hop where this one refuses to descend.
fn descend<T: Table>(
    table: &T,
    chain: &[u32],
    hop: usize,
    opened: Option<usize>,
    found: &mut Vec<Valley>,
) -> Result<Option<usize>, NoMemory>
    requires within { hop < length chain.now }
    requires behind { IsBehind opened hop }
    requires some { 0 < hop }
    ensures still { IfOk result (λ still.
        still ≡ still_open (descent_at (T.rows table.now) chain.now hop) opened) }
    ensures found { OnOk result (found.new.items ≡ found.old.items
        ++ closed_by (descent_at (T.rows table.now) chain.now hop) chain.now opened hop) }
{
    match table.authority(chain[hop], chain[hop - 1]) {
        Authority::Refuses => {
            close(chain, opened, hop, found)?;
            Ok(None)
        }
        Authority::Silent | Authority::Provides => Ok(opened),
    }
}

// This hop is the open one from now on where it refuses to climb.
fn climb<T: Table>(table: &T, chain: &[u32], hop: usize, opened: Option<usize>) -> Option<usize>
    requires within { hop < length chain.now }
    requires some { 0 < hop }
    ensures { result ≡ opened_by (climb_at (T.rows table.now) chain.now hop) hop opened }
{
    match table.authority(chain[hop - 1], chain[hop]) {
        Authority::Refuses => Some(hop),
        Authority::Silent | Authority::Provides => opened,
    }
}

// Ends the valley of the open hop by the export to us where the path is upstream.
fn export(
    direction: Direction,
    chain: &[u32],
    opened: Option<usize>,
    found: &mut Vec<Valley>,
) -> Result<(), NoMemory>
    requires { IsBehind opened (length chain.now) }
    ensures { OnOk result (found.new.items
        ≡ found.old.items ++ exported direction chain.now opened) }
{
    match direction {
        Direction::Up => close(chain, opened, chain.len(), found),
        Direction::Down => Ok(()),
    }
}

// Appends the valley from the open hop to this one, if a hop is open.
fn close(
    chain: &[u32],
    opened: Option<usize>,
    hop: usize,
    found: &mut Vec<Valley>,
) -> Result<(), NoMemory>
    requires within { hop ≤ length chain.now }
    requires behind { IsBehind opened hop }
    ensures { OnOk result (found.new.items ≡ found.old.items ++ closed chain.now opened hop) }
{
    if let Some(opened) = opened {
        found.push(Valley {
            from: chain[opened - 1],
            first: chain[opened],
            last: chain[hop - 1],
            to: chain.get(hop).copied(),
        })?;
    }
    Ok(())
}
