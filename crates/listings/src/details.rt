//! The routes as they stand.
ghost use Rattle.std.specs.Prelude.{map};
ghost use Rattle.rib_store.specs.ShownLeft.{shown_left};
ghost use Rattle.listings.specs.Listing.{Lists, pouring};
ghost use Rattle.listings.specs.Details.{AreDetails, detail_row};
ghost use Rattle.listings.specs.EachDetail.{piece_of};

use crate::listing::{Listing, put_all};
use av_base::{NoMemory, Sink, Stop};
use conditions::Conditions;
use report_text::PeerLines;
use rib_store::{RibStore, ShownRows};

// The routes that are left.
#[derive(Drop)]
struct DetailLines<'a> {
    rows: ShownRows<'a>,
    conditions: &'a Conditions,
    lines: PeerLines,
}

impl<'a> Listing for DetailLines<'a> {
    ghost left = { λ l. map (piece_of l.conditions.now) (shown_left l.rows) };

    fn put_next(&mut self, text: &mut Vec<u8>) -> Result<bool, NoMemory> {
        let Some((key, shown)) = self.rows.next() else {
            return Ok(false);
        };
        if self.conditions.meets(&key, shown.verdict, shown.trail) {
            self.lines
                .put_detail(text, &key, shown.verdict, shown.witness, shown.trail)?;
        }
        Ok(true)
    }
}

/// Lists each route on a line, in key order, with its current verdict, the witness that is printed of it, and its path; of these the
/// routes that meet all conditions. The text is held, and written in pieces. Nothing is judged. A path is looked at only where a
/// condition on it is given or the route is listed.
#[tactic(auto, using(crate::proofs::DetailsLemmas::details_listed))]
pub fn put_details<W: Sink>(
    store: &RibStore,
    conditions: &Conditions,
    out: &mut W,
    text: &mut Vec<u8>,
) -> Result<(), Stop>
    ensures { Lists (AreDetails store.now.state conditions.now) detail_row
        (pouring W.Sink out.old text.old.items) (pouring W.Sink out.new text.new.items) result }
{
    let mut listing = DetailLines {
        rows: store.shown(),
        conditions,
        lines: PeerLines::new(),
    };
    put_all(&mut listing, out, text)
}
