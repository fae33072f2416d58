//! The suspects of all routes of a store.
ghost use Rattle.std.specs.Prelude.{IfOk, OnOk};
ghost use Rattle.attestations.specs.ComputedTable.{table_of};
ghost use Rattle.rib_store.specs.Pairs.{paired};
ghost use Rattle.valleys.specs.Order.{valley_cmp};
ghost use Rattle.listings.specs.SuspectSteps.{IsNoted};
ghost use Rattle.listings.specs.Suspects.{AreSuspects};
ghost use Rattle.listings.specs.TallySteps.{AddsTo, HasRoomFor};

use crate::tallies::Tallies;
use av_base::NoMemory;
use path_model::Witness;
use rib_store::{Pair, RibStore};
use std::alloc::Global;
use valleys::{Valley, valleys};
use vap_table::Vaps;

/// The valleys of the routes whose printed witness is `Blocked`, so that no completion makes them valid, each with how many have it. It visits
/// each pair of a peer AS and a path once, looks up each hop in both directions where the witness is `Blocked`, and judges nothing.
pub fn suspects(alloc: Global, store: &RibStore) -> Result<Tallies<Valley>, NoMemory>
    ensures { IfOk result (AreSuspects store.now.state) }
{
    // no tally is over the number of the rows
    let _rows = store.rows();
    let table = store.table();
    let mut found = Tallies::new(alloc);
    for pair in store.pairs() {
        note(&mut found, alloc, table, &pair)?;
    }
    let _length = found.len();
    Ok(found)
}

// What a pair adds.
fn note(
    found: &mut Tallies<Valley>,
    alloc: Global,
    table: &Vaps,
    pair: &Pair<'_>,
) -> Result<(), NoMemory>
    requires { HasRoomFor valley_cmp (IsNoted (table_of table.now) (paired pair.now))
        pair.now.routes found.old }
    ensures { OnOk result (AddsTo valley_cmp (IsNoted (table_of table.now) (paired pair.now))
        pair.now.routes found.old found.new) }
{
    match pair.witness {
        Witness::Blocked { .. } => {
            let valleys = valleys(alloc, table, pair.role, pair.trail.chain().as_slice())?;
            found.add_all(valleys.as_slice(), pair.routes)
        }
        Witness::Valid { .. }
        | Witness::Empty
        | Witness::Set
        | Witness::Neighbour
        | Witness::Unsettled { .. } => Ok(()),
    }
}
