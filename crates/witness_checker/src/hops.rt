//! Single hops, counted from 1, at which the climb and the descent stop.
ghost use Rattle.std.specs.Prelude.{◌↔◌, IsTrue};
ghost use Rattle.path_model.specs.Witness.{IsHop, IsLaterHop};
ghost use Rattle.witness_checker.specs.Hops.{IsJoined, StopsClimb, StopsDescent};

use crate::silence::Silence;
use path_model::{Direction, Table};

/// Whether the hop `first` stops the climb, and downstream the later hop `last` stops the descent; upstream `last` has to be none.
pub(crate) fn block<T: Table>(
    table: &T,
    direction: Direction,
    chain: &[u32],
    silence: Silence,
    first: u32,
    last: Option<u32>,
) -> bool
    ensures { IsTrue result ↔ (IsHop chain.now (StopsClimb silence (T.rows table.now) chain.now) first
        × IsLaterHop direction chain.now (StopsDescent silence (T.rows table.now) chain.now) first last) }
{
    stops_climb(table, chain, silence, first)
        && stops_later(table, direction, chain, silence, first, last)
}

// Whether this is a hop that stops the climb.
fn stops_climb<T: Table>(table: &T, chain: &[u32], silence: Silence, hop: u32) -> bool
    ensures { IsTrue result
        ↔ IsHop chain.now (StopsClimb silence (T.rows table.now) chain.now) hop }
{
    match joined(chain, hop) {
        None => false,
        Some((lower, upper)) => silence.stops(table.authority(lower, upper)),
    }
}

// Whether this is a hop that stops the descent.
fn stops_descent<T: Table>(table: &T, chain: &[u32], silence: Silence, hop: u32) -> bool
    ensures { IsTrue result
        ↔ IsHop chain.now (StopsDescent silence (T.rows table.now) chain.now) hop }
{
    match joined(chain, hop) {
        None => false,
        Some((lower, upper)) => silence.stops(table.authority(upper, lower)),
    }
}

// Whether downstream a later hop stops the descent, and upstream none is named.
fn stops_later<T: Table>(
    table: &T,
    direction: Direction,
    chain: &[u32],
    silence: Silence,
    first: u32,
    last: Option<u32>,
) -> bool
    ensures { IsTrue result
        ↔ IsLaterHop direction chain.now (StopsDescent silence (T.rows table.now) chain.now) first last }
{
    match (direction, last) {
        (Direction::Up, None) => true,
        (Direction::Up, Some(_)) => false,
        (Direction::Down, None) => false,
        (Direction::Down, Some(last)) => {
            first < last && stops_descent(table, chain, silence, last)
        }
    }
}

// The lower and the upper AS that a hop joins, or `None` where it is no hop.
fn joined(chain: &[u32], hop: u32) -> Option<(u32, u32)>
    ensures { IsJoined chain.now hop result }
{
    let upper = hop as usize;
    if upper == 0 || upper >= chain.len() {
        return None;
    }
    Some((chain[upper - 1], chain[upper]))
}
