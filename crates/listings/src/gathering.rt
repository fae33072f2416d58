//! How many routes went between an AS and those beside it, counted case by case.
ghost use Rattle.std.specs.Prelude.{◌≡◌, ◌&&◌, ◌||◌, ℕ, nat_eq, false, true, map, IfOk, OnOk};
ghost use Rattle.std.specs.List.Sorted.{IsStrictlySortedBy};
ghost use Rattle.std.specs.Ordering.{nat_cmp};
ghost use Rattle.attestations.specs.ComputedTable.{table_of};
ghost use Rattle.hop_index.specs.Index.{has as hops_have};
ghost use Rattle.hop_index.specs.Numbers.{has_number};
ghost use Rattle.listings.specs.EachNeighbour.{counted, counted_by, row_of, went_at, went_or};
ghost use Rattle.listings.specs.Neighbours.{AreNeighboursOf};
ghost use Rattle.shared_cases.specs.Cases.{at};

use crate::went::Went;
use av_base::NoMemory;
use hop_index::HopIndex;
use rib_store::RibStore;
use std::alloc::Global;
use std::collections::BTreeMap;

/// The ASes beside this one, each with how many routes went to it and came from it. The path of each case that has a hop of the AS is read
/// once.
pub(crate) fn gather(
    alloc: Global,
    store: &RibStore,
    asn: u32,
) -> Result<BTreeMap<u32, Went>, NoMemory>
    ensures { IfOk result (λ found. AreNeighboursOf store.now.state asn
        (map (row_of (table_of store.now.state.parts) asn) found.entries)) }
{
    store.cases_are_those_of_the_routes();
    store.cases_count_their_routes();
    let cases = cases_of(alloc, store.index(), asn)?;
    let mut found = BTreeMap::new(alloc);
    for number in cases.as_slice() {
        count_case(&mut found, store, asn, *number)?;
    }
    let _length = found.len();
    Ok(found)
}

// The numbers of the cases that have a hop of an AS, rising, each once.
fn cases_of(alloc: Global, index: &HopIndex, asn: u32) -> Result<Vec<u32>, NoMemory>
    ensures whole { IfOk result (λ cases. (y n : ℕ)
        → hops_have index.now asn y n ≡ true → has_number cases.items n ≡ true) }
    ensures rising { IfOk result (λ cases. IsStrictlySortedBy nat_cmp cases.items) }
{
    let mut cases = Vec::new(alloc);
    for other in index.neighbours(asn) {
        index.push_between(asn, other, &mut cases)?;
    }
    cases.sort()?;
    cases.dedup();
    Ok(cases)
}

// Counts a case at the ASes beside this one on its path: in each direction once, however often it has such a hop.
fn count_case(
    found: &mut BTreeMap<u32, Went>,
    store: &RibStore,
    asn: u32,
    number: u32,
) -> Result<(), NoMemory>
    ensures { OnOk result ((y : ℕ) → went_at found.new.entries y
        ≡ counted_by asn y number (at store.now.cases number) (went_at found.old.entries y)) }
{
    let Some(case) = store.case(number as usize) else {
        return Ok(());
    };
    let chain = case.trail.chain().as_slice();
    for k in 1..chain.len() {
        count_hop(found, asn, chain[k - 1], chain[k], number, case.users)?;
    }
    Ok(())
}

// Counts a case at the ends of one of its hops: at the upper one where it went there from this AS, and at the lower one where it came from
// there.
fn count_hop(
    found: &mut BTreeMap<u32, Went>,
    asn: u32,
    lower: u32,
    upper: u32,
    number: u32,
    users: u32,
) -> Result<(), NoMemory>
    ensures { OnOk result ((y : ℕ) → went_at found.new.entries y
        ≡ counted (nat_eq asn lower && nat_eq y upper) (nat_eq y lower && nat_eq asn upper)
        number users (went_at found.old.entries y)) }
{
    if lower == asn {
        let went = found.entry(upper)?.or_insert(Went::none());
        went.to.add(number, users)?;
    }
    if upper == asn {
        let went = found.entry(lower)?.or_insert(Went::none());
        went.from.add(number, users)?;
    }
    Ok(())
}
