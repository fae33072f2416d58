//! Labellings that fit.
ghost use Rattle.std.specs.Prelude.{◌≡◌, ℕ, ◌+◌, ◌<◌, ◌≤◌, ◌↔◌, length, IsTrue};
ghost use Rattle.path_model.specs.Labelling.{IsOfShape, LabelsEachHop, Fits};
ghost use Rattle.witness_checker.specs.Fitting.{as_labelling};
ghost use Rattle.witness_checker.specs.Hops.{GoesUp, GoesDown};

use crate::silence::Silence;
use path_model::{Direction, Table};

/// A labelling of a chain's hops, with whatever numbers a caller may give it: from the origin on so many hops climb, so many are free,
/// and so many descend.
#[derive(Clone, Copy)]
pub(crate) struct Labelling {
    pub(crate) climbs: u32,
    pub(crate) free: u32,
    pub(crate) descents: u32,
}

/// Whether a labelling is of the direction's shape, labels each hop, and fits.
pub(crate) fn fits<T: Table>(
    table: &T,
    direction: Direction,
    chain: &[u32],
    silence: Silence,
    labelling: Labelling,
) -> bool
    ensures { IsTrue result ↔ Fits (GoesUp silence (T.rows table.now) chain.now)
        (GoesDown silence (T.rows table.now) chain.now) direction chain.now (as_labelling labelling) }
{
    let start = u64::from(labelling.climbs) + u64::from(labelling.free);
    is_of_shape(direction, labelling)
        && start + u64::from(labelling.descents) + 1 == chain.len() as u64
        && climbs_below(table, chain, silence, labelling.climbs as usize)
        && descends_from(table, chain, silence, start as usize)
}

// Whether a labelling is of the direction's shape.
fn is_of_shape(direction: Direction, labelling: Labelling) -> bool
    ensures { IsTrue result ↔ IsOfShape direction (as_labelling labelling) }
{
    match direction {
        Direction::Up => labelling.free == 0 && labelling.descents == 0,
        Direction::Down => labelling.free <= 1,
    }
}

// Whether each hop below a place climbs.
fn climbs_below<T: Table>(table: &T, chain: &[u32], silence: Silence, end: usize) -> bool
    requires { end < length chain.now }
    ensures { IsTrue result
        ↔ ((k : ℕ) → k < end → GoesUp silence (T.rows table.now) chain.now k) }
{
    for k in 0..end {
        if !silence.goes_on(table.authority(chain[k], chain[k + 1])) {
            return false;
        }
    }
    true
}

// Whether each hop from a place on descends.
fn descends_from<T: Table>(table: &T, chain: &[u32], silence: Silence, start: usize) -> bool
    requires { start < length chain.now }
    ensures { IsTrue result
        ↔ ((k : ℕ) → start ≤ k → k + 1 < length chain.now → GoesDown silence (T.rows table.now) chain.now k) }
{
    for k in start..chain.len() - 1 {
        if !silence.goes_on(table.authority(chain[k + 1], chain[k])) {
            return false;
        }
    }
    true
}
