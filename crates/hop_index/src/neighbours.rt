//! The neighbours of each AS: the other ASes with which some case has a hop. An AS without neighbours has no entry.
ghost use Rattle.std.specs.Prelude.{◌≡◌, ◌≢◌, ◌↔◌, ℕ, [], Some, OnOk, IsTrue};
ghost use Rattle.std.specs.List.Sorted.{IsStrictlySortedBy};
ghost use Rattle.std.specs.Ordering.{nat_cmp};
ghost use Rattle.hop_index.specs.Kept.{neighbours_found, AddsNeighbour, RemovesNeighbour, HaveNeighbours};
ghost use Rattle.hop_index.specs.Numbers.{numbers_or};

use crate::number_iter::NumberIter;
use crate::numbers::Numbers;
use av_base::NoMemory;
use std::alloc::Global;
use std::collections::BTreeMap;

// One neighbour of an AS more, where it isn't there yet.
pub(crate) fn insert(
    ends: &mut BTreeMap<u32, Numbers>,
    alloc: Global,
    x: u32,
    y: u32,
) -> Result<(), NoMemory>
    ensures added { OnOk result (AddsNeighbour ends.old.entries x y ends.new.entries) }
    ensures kept { OnOk result (HaveNeighbours ends.old.entries → HaveNeighbours ends.new.entries) }
{
    if let Some(neighbours) = ends.get_mut(&x) {
        return neighbours.insert(y);
    }
    let mut neighbours = Numbers::new(alloc);
    neighbours.insert(y)?;
    ends.insert(x, neighbours)?;
    Ok(())
}

// One neighbour of an AS less. An entry goes with its last neighbour. It takes no memory.
pub(crate) fn remove(ends: &mut BTreeMap<u32, Numbers>, x: u32, y: u32)
    ensures removed { RemovesNeighbour ends.old.entries x y ends.new.entries }
    ensures kept { HaveNeighbours ends.old.entries → HaveNeighbours ends.new.entries }
{
    if take_out(ends, x, y) {
        ends.remove(&x);
    }
}

// The neighbours of an AS, rising; none where it has no entry.
pub(crate) fn of<'a>(ends: &'a BTreeMap<u32, Numbers>, x: u32) -> Option<NumberIter<'a>>
    ensures whole { numbers_or result ≡ numbers_or (neighbours_found ends.now.entries x) }
    ensures rising { IsStrictlySortedBy nat_cmp (numbers_or result) }
{
    match ends.get(&x) {
        None => None,
        Some(neighbours) => Some(neighbours.iter()),
    }
}

// One neighbour of an AS less, and whether the AS stands there without neighbours.
fn take_out(ends: &mut BTreeMap<u32, Numbers>, x: u32, y: u32) -> bool
    ensures removed { RemovesNeighbour ends.old.entries x y ends.new.entries }
    ensures emptied { IsTrue result ↔ (neighbours_found ends.new.entries x ≡ Some []) }
    ensures others { (u : ℕ) → u ≢ x
        → neighbours_found ends.new.entries u ≡ neighbours_found ends.old.entries u }
{
    match ends.get_mut(&x) {
        None => false,
        Some(neighbours) => {
            neighbours.remove(y);
            neighbours.is_empty()
        }
    }
}
