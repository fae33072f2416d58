//! Our routes as an AS sees them that gets them over some ASes.
ghost use Rattle.rib_store.specs.Numbered.{numbered_left};
ghost use Rattle.listings.specs.EachSent.{pieces};
ghost use Rattle.listings.specs.Listing.{Lists, pouring};
ghost use Rattle.listings.specs.Sent.{AreSent, TicksAsSent, sent_row};

use crate::behind::own_verdict;
use crate::listing::{Listing, put_all};
use crate::sent_verdicts::{held_at, sent_verdicts};
use av_base::{NoMemory, Sink, Steps, Stop};
use path_model::{AsList, Role, Verdict};
use report_text::{PeerLines, put_own};
use rib_store::{NumberedRoutes, RibStore};
use std::alloc::Global;
use std::sync::ledger::Ledger;

// The line of what we originate, where it is left, and the routes that are.
#[derive(Drop)]
struct SentLines<'a, 'v> {
    own: Option<Verdict>,
    routes: NumberedRoutes<'a>,
    // each under its case's number
    verdicts: &'v [Option<Verdict>],
    lines: PeerLines,
}

impl<'a, 'v> Listing for SentLines<'a, 'v> {
    ghost left = { λ l. pieces l.own l.verdicts.now (numbered_left l.routes) };

    fn put_next(&mut self, text: &mut Vec<u8>) -> Result<bool, NoMemory> {
        if let Some(own) = self.own {
            put_own(text, own)?;
            self.own = None;
            return Ok(true);
        }
        let Some((key, number)) = self.routes.next() else {
            return Ok(false);
        };
        if let Some(verdict) = held_at(self.verdicts, number) {
            self.lines.put_row(text, &key, verdict)?;
        }
        Ok(true)
    }
}

/// Lists our routes as an AS sees them that gets them over these ASes: neighbour of that AS first, the last one is our own AS. First stands
/// the verdict of the path of these ASes alone, so of what we originate; then, in key order, that of each route whose peer's present role is
/// `customer` or `mutual`, with the route's path behind these ASes. All is judged in this role of the first one. The text is held, and written
/// in pieces. Each such pair of a peer AS and a path is judged once, before the first line is held; it goes over all routes twice, and takes a
/// byte for each number that a case ever had. For a path of more than 65,535 ASes there is no memory; no message has so many.
#[tactic(auto, using(crate::proofs::SentLemmas::none_listed))]
pub fn put_sent<W: Sink, L: Ledger>(
    alloc: Global,
    store: &RibStore,
    role: Role,
    ases: &AsList,
    steps: &mut Steps<L>,
    out: &mut W,
    text: &mut Vec<u8>,
) -> Result<(), Stop>
    ensures lists { Lists (AreSent store.now.state role ases.now) sent_row
        (pouring W.Sink out.old text.old.items) (pouring W.Sink out.new text.new.items) result }
    ensures ticks { TicksAsSent store.now.state steps.old steps.new result }
{
    store.cases_are_those_of_the_routes();
    let ases = ases.as_slice();
    let own = own_verdict(alloc, store.table(), role, ases, steps)?;
    let verdicts = sent_verdicts(alloc, store, role, ases, steps)?;
    let mut listing = SentLines {
        own: Some(own),
        routes: store.numbered(),
        verdicts: &verdicts,
        lines: PeerLines::new(),
    };
    put_all(&mut listing, out, text)
}
