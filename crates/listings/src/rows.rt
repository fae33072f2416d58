//! The rows of a report.
ghost use Rattle.std.specs.Prelude.{◌≡◌, Some, flat_map};
ghost use Rattle.rib_store.specs.Rows.{all_rows, peer_rows_left, peers_left};
ghost use Rattle.rib_store.specs.State.{AreRows};
ghost use Rattle.listings.specs.EachRow.{pieces_under};
ghost use Rattle.listings.specs.Rows.{row_of};
ghost use Rattle.listings.specs.Listing.{Listed, Lists, pouring};

use crate::listing::{Listing, put_all};
use av_base::{NoMemory, Sink, Stop};
use path_model::Peer;
use report_text::PeerLines;
use rib_store::{PeerRows, RibPeers, RibStore};

// The rows of a peer that are left.
#[derive(Drop)]
struct RowLines<'a> {
    peer: Peer,
    rows: PeerRows<'a>,
    lines: PeerLines,
    ghost turned: { lines ≡ Some peer },
}

impl<'a> Listing for RowLines<'a> {
    ghost left = { λ l. pieces_under l.peer (peer_rows_left l.rows) };

    fn put_next(&mut self, text: &mut Vec<u8>) -> Result<bool, NoMemory> {
        let Some((nlri, verdict)) = self.rows.next() else {
            return Ok(false);
        };
        self.lines.put_row_of(text, nlri, verdict)?;
        Ok(true)
    }
}

/// Reports each route on a line, in key order, with its current verdict. The text is held, and written in pieces.
#[tactic(auto, using(crate::proofs::RowsLemmas::rows_listed))]
pub fn put_rows<W: Sink>(store: &RibStore, out: &mut W, text: &mut Vec<u8>) -> Result<(), Stop>
    ensures { Lists (AreRows store.now.state) row_of
        (pouring W.Sink out.old text.old.items) (pouring W.Sink out.new text.new.items) result }
{
    put_by_peer(store.rows_by_peer(), out, text)
}

// Reports the routes of each of these peers.
fn put_by_peer<W: Sink>(peers: RibPeers<'_>, out: &mut W, text: &mut Vec<u8>) -> Result<(), Stop>
    ensures { Listed (flat_map row_of (all_rows (peers_left peers.entry)))
        (pouring W.Sink out.old text.old.items) (pouring W.Sink out.new text.new.items) result }
{
    for (peer, rows) in peers {
        let mut lines = PeerLines::new();
        lines.turn_to(&peer);
        let mut listing = RowLines { peer, rows, lines };
        put_all(&mut listing, out, text)?;
    }
    Ok(())
}
