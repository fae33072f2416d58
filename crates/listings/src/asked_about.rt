//! The silent ASes that the routes of a store ask about.
ghost use Rattle.std.specs.Prelude.{◌≡◌, ◌∷◌, ◌++◌, [], IfOk, OnOk};
ghost use Rattle.std.specs.Ordering.{nat_cmp};
ghost use Rattle.attestations.specs.ComputedTable.{table_of};
ghost use Rattle.rib_store.specs.Pairs.{paired};
ghost use Rattle.listings.specs.Silent.{AreSilent};
ghost use Rattle.listings.specs.SilentSteps.{IsNotedFor, asked_of, without_row};
ghost use Rattle.listings.specs.TallySteps.{AddsTo, HasRoomFor};

use crate::tallies::Tallies;
use av_base::NoMemory;
use path_model::{AsList, Authority, Direction, Table, Verdict};
use rib_store::{Pair, RibStore};
use std::alloc::Global;
use vap_table::Vaps;

/// The ASes without a row about which unknown routes ask, each with how many do. It visits each pair of a peer AS and a path once, looks up
/// each AS of its path where the verdict is unknown, and judges nothing.
pub fn silent_ases(alloc: Global, store: &RibStore) -> Result<Tallies<u32>, NoMemory>
    ensures { IfOk result (AreSilent store.now.state) }
{
    // no tally is over the number of the rows
    let _rows = store.rows();
    let table = store.table();
    let mut found = Tallies::new(alloc);
    for pair in store.pairs() {
        note(&mut found, alloc, table, &pair)?;
    }
    let _length = found.len();
    Ok(found)
}

// What a pair adds.
fn note(
    found: &mut Tallies<u32>,
    alloc: Global,
    table: &Vaps,
    pair: &Pair<'_>,
) -> Result<(), NoMemory>
    requires { HasRoomFor nat_cmp (IsNotedFor (table_of table.now) (paired pair.now))
        pair.now.routes found.old }
    ensures { OnOk result (AddsTo nat_cmp (IsNotedFor (table_of table.now) (paired pair.now))
        pair.now.routes found.old found.new) }
{
    match pair.verdict {
        Verdict::Unknown => {
            let asked = asked_of(pair.role.direction(), pair.trail.chain().as_slice());
            let silent = without_row(alloc, table, asked)?.into_set();
            found.add_all(silent.as_slice(), pair.routes)
        }
        Verdict::Valid | Verdict::Invalid => Ok(()),
    }
}

// The ASes about which the hops of a chain ask: all but the neighbour, and downstream it too, where there is a hop.
fn asked_of(direction: Direction, chain: &[u32]) -> &[u32]
    ensures { result.now ≡ asked_of direction chain.now }
{
    let Some((_, front)) = chain.split_last() else {
        return chain;
    };
    match direction {
        Direction::Up => front,
        Direction::Down if front.is_empty() => front,
        Direction::Down => chain,
    }
}

// Those of some ASes that have no row.
fn without_row(alloc: Global, table: &Vaps, ases: &[u32]) -> Result<AsList, NoMemory>
    ensures { IfOk result (λ list. list ≡ without_row (table_of table.now) ases.now) }
{
    let mut silent = AsList::new(alloc);
    for asn in ases {
        push_if_silent(&mut silent, table, *asn)?;
    }
    Ok(silent)
}

// Appends an AS, where it has no row.
fn push_if_silent(silent: &mut AsList, table: &Vaps, asn: u32) -> Result<(), NoMemory>
    ensures { OnOk result (silent.new ≡ silent.old ++ without_row (table_of table.now) (asn ∷ [])) }
{
    // whatever it is asked about, it says nothing
    match table.authority(asn, asn) {
        Authority::Silent => silent.push(asn),
        Authority::Refuses | Authority::Provides => Ok(()),
    }
}
