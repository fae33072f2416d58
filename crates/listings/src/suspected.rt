//! Who is suspected of leaks.
ghost use Rattle.std.specs.Prelude.{map};
ghost use Rattle.listings.specs.Listing.{Lists, pouring};
ghost use Rattle.listings.specs.Suspects.{AreSuspects};
ghost use Rattle.listings.specs.Suspected.{suspect_row};

use crate::listing::{Listing, put_all};
use crate::suspected_valleys::suspects;
use crate::tally::Tally;
use av_base::{NoMemory, Sink, Stop};
use report_text::{Suspect, put_suspect};
use rib_store::RibStore;
use std::alloc::Global;
use std::collections::btree_map;
use valleys::Valley;

// The valleys that are left.
#[derive(Drop)]
struct SuspectLines<'a> {
    rows: btree_map::Iter<'a, Valley, Tally>,
}

impl<'a> Listing for SuspectLines<'a> {
    ghost left = { λ l. map suspect_row l.rows };

    fn put_next(&mut self, text: &mut Vec<u8>) -> Result<bool, NoMemory> {
        let Some((valley, tally)) = self.rows.next() else {
            return Ok(false);
        };
        let suspect = Suspect {
            from: valley.from,
            first: valley.first,
            last: valley.last,
            to: valley.to,
            routes: tally.routes,
            paths: tally.paths,
        };
        put_suspect(text, suspect)?;
        Ok(true)
    }
}

/// Lists each valley of the routes that no completion makes valid on a line, in ascending order, with how many routes have it, and how many
/// pairs of a peer's AS and a path these are. The text is held, and written in pieces. The whole list is made before its first line is held; it
/// takes the memory of the distinct valleys, and the time that the hops of the distinct paths take.
#[tactic(auto, using(crate::proofs::SuspectedLemmas::suspects_listed, crate::proofs::SuspectedLemmas::none_listed))]
pub fn put_suspects<W: Sink>(
    alloc: Global,
    store: &RibStore,
    out: &mut W,
    text: &mut Vec<u8>,
) -> Result<(), Stop>
    ensures { Lists (AreSuspects store.now.state) suspect_row
        (pouring W.Sink out.old text.old.items) (pouring W.Sink out.new text.new.items) result }
{
    let found = suspects(alloc, store)?;
    let mut listing = SuspectLines { rows: found.iter() };
    put_all(&mut listing, out, text)
}
