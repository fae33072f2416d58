//! The ASes beside an AS: what the two attest of each other, and how many routes went between them.
ghost use Rattle.std.specs.Prelude.{◌≡◌, map};
ghost use Rattle.attestations.specs.ComputedTable.{table_of};
ghost use Rattle.listings.specs.EachNeighbour.{row_of};
ghost use Rattle.listings.specs.Listing.{Lists, pouring};
ghost use Rattle.listings.specs.Neighbours.{AreNeighboursOf, neighbour_row};

use crate::gathering::gather;
use crate::listing::{Listing, put_all};
use crate::went::Went;
use av_base::{NoMemory, Sink, Stop};
use path_model::Table;
use report_text::{Neighbour, put_neighbour};
use rib_store::RibStore;
use std::alloc::Global;
use std::collections::btree_map;
use vap_table::Vaps;

// The ASes beside an AS that are left.
#[derive(Drop)]
struct NeighbourLines<'a, 'f> {
    table: &'a Vaps,
    asn: u32,
    rows: btree_map::Iter<'f, u32, Went>,
}

impl<'a, 'f> Listing for NeighbourLines<'a, 'f> {
    ghost left = { λ l. map neighbour_row (map (row_of (table_of l.table.now) l.asn) l.rows) };

    fn put_next(&mut self, text: &mut Vec<u8>) -> Result<bool, NoMemory> {
        let Some((other, went)) = self.rows.next() else {
            return Ok(false);
        };
        put_neighbour(text, row_of(self.table, self.asn, *other, *went))?;
        Ok(true)
    }
}

/// Lists each AS that stands beside this one on some route's path on a line, by rising number, with what the two attest of each other and
/// how many routes went from each to the other. A route goes from the origin's side on; one that has a hop twice counts once, and one that
/// went both ways counts in both. The text is held, and written in pieces. It judges nothing. The whole list is made before its first line
/// is held: it sorts the numbers of the cases of the AS's hops, reads the path of each once, and takes a look-up for each hop of the AS on
/// it. The list takes 40 to 80 bytes for each AS on it, and its making 4 to 12 bytes for each case with a hop to each of these. Where the
/// hops aren't in lists ([`RibStore::list_hops`]), it goes over all paths twice for each AS beside it, to find these cases.
#[tactic(auto, using(crate::proofs::NeighbourLemmas::none_listed))]
pub fn put_neighbours<W: Sink>(
    alloc: Global,
    store: &RibStore,
    asn: u32,
    out: &mut W,
    text: &mut Vec<u8>,
) -> Result<(), Stop>
    ensures { Lists (AreNeighboursOf store.now.state asn) neighbour_row
        (pouring W.Sink out.old text.old.items) (pouring W.Sink out.new text.new.items) result }
{
    let found = gather(alloc, store, asn)?;
    let mut listing = NeighbourLines {
        table: store.table(),
        asn,
        rows: found.iter(),
    };
    put_all(&mut listing, out, text)
}

// The row of an AS beside this one.
fn row_of(table: &Vaps, asn: u32, other: u32, went: Went) -> Neighbour
    ensures { result ≡ row_of (table_of table.now) asn (other, went) }
{
    Neighbour {
        asn,
        neighbour: other,
        climb: table.authority(asn, other),
        descend: table.authority(other, asn),
        to: went.to.routes,
        from: went.from.routes,
    }
}
