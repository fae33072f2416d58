//! Who should attest next.
ghost use Rattle.std.specs.Prelude.{map};
ghost use Rattle.listings.specs.Listing.{Lists, pouring};
ghost use Rattle.listings.specs.Silent.{AreSilent, silent_row};

use crate::asked_about::silent_ases;
use crate::listing::{Listing, put_all};
use crate::tally::Tally;
use av_base::{NoMemory, Sink, Stop};
use report_text::SilentAs;
use rib_store::RibStore;
use std::alloc::Global;
use std::collections::btree_map;

// The ASes that are left.
#[derive(Drop)]
struct SilentLines<'a> {
    rows: btree_map::Iter<'a, u32, Tally>,
}

impl<'a> Listing for SilentLines<'a> {
    ghost left = { λ l. map silent_row l.rows };

    fn put_next(&mut self, text: &mut Vec<u8>) -> Result<bool, NoMemory> {
        let Some((asn, tally)) = self.rows.next() else {
            return Ok(false);
        };
        let silent = SilentAs {
            asn: *asn,
            routes: tally.routes,
            paths: tally.paths,
        };
        report_text::put_silent(text, silent)?;
        Ok(true)
    }
}

/// Lists each AS that has no row and is asked about by some unknown route on a line, by rising number, with how many routes ask about it,
/// and how many pairs of a peer's AS and a path these are. The text is held, and written in pieces. The whole list is made before its
/// first line is held; it takes the memory of the ASes that are listed, and the time that the ASes of the distinct paths take.
#[tactic(auto, using(crate::proofs::SilentLemmas::silent_listed, crate::proofs::SilentLemmas::none_listed))]
pub fn put_silent<W: Sink>(
    alloc: Global,
    store: &RibStore,
    out: &mut W,
    text: &mut Vec<u8>,
) -> Result<(), Stop>
    ensures { Lists (AreSilent store.now.state) silent_row
        (pouring W.Sink out.old text.old.items) (pouring W.Sink out.new text.new.items) result }
{
    let found = silent_ases(alloc, store)?;
    let mut listing = SilentLines { rows: found.iter() };
    put_all(&mut listing, out, text)
}
