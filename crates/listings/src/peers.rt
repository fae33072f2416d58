//! The peers, with their roles and how many routes they have.
ghost use Rattle.std.specs.Prelude.{◌≡◌, ◌<◌, ◌^◌, length};
ghost use Rattle.path_model.specs.Entries.{own_left};
ghost use Rattle.rib_store.specs.Rows.{all_rows, peer_rows_left, peers_left};
ghost use Rattle.listings.specs.EachPeer.{one_more, pieces, summary_under, AreWithin};
ghost use Rattle.listings.specs.Listing.{Lists, pouring};
ghost use Rattle.listings.specs.Peers.{ArePeers, idle_summary, peer_row};

use crate::listing::{Listing, put_all};
use crate::seen::seen_ases;
use av_base::{NoMemory, Sink, Stop};
use path_model::{OwnRoles, Peer, Roles, Verdict};
use report_text::{PeerSummary, put_peer_summary};
use rib_store::{PeerRows, RibPeers, RibStore};
use std::alloc::Global;
use std::collections::BTreeSet;

// The peers that are left, and the ASes with a role of their own that are.
#[derive(Drop)]
struct PeerLines<'a, 's> {
    peers: RibPeers<'a>,
    own: OwnRoles<'a>,
    roles: &'a Roles,
    // those of the ASes that have routes
    seen: &'s BTreeSet<u32>,
    ghost few: { length (all_rows (peers_left peers)) < 2 ^ 63 },
}

impl<'a, 's> Listing for PeerLines<'a, 's> {
    ghost left = { λ l. pieces l.roles.now l.seen.now.keys (peers_left l.peers) (own_left l.own) };

    fn put_next(&mut self, text: &mut Vec<u8>) -> Result<bool, NoMemory> {
        if let Some((peer, rows)) = self.peers.next() {
            put_peer_summary(text, summary_under(peer, rows, self.roles))?;
            return Ok(true);
        }
        let Some((asn, _role)) = self.own.next() else {
            return Ok(false);
        };
        if self.seen.contains(&asn) {
            return Ok(true);
        }
        put_peer_summary(text, idle_summary(asn, self.roles))?;
        Ok(true)
    }
}

/// Lists each peer that has routes on a line, in key order, with its role and how many routes it has, by their current verdicts; and then
/// each AS that has a role of its own and no routes. The text is held, and written in pieces. It judges nothing, and takes the memory of the
/// ASes that have a role of their own and routes.
#[tactic(auto, using(crate::proofs::PeersLemmas::none_listed))]
pub fn put_peers<W: Sink>(
    alloc: Global,
    store: &RibStore,
    out: &mut W,
    text: &mut Vec<u8>,
) -> Result<(), Stop>
    ensures { Lists (ArePeers store.now.state) peer_row
        (pouring W.Sink out.old text.old.items) (pouring W.Sink out.new text.new.items) result }
{
    let roles = store.roles();
    let seen = seen_ases(alloc, store.rows_by_peer(), roles)?;
    let mut listing = PeerLines {
        peers: store.rows_by_peer(),
        own: roles.own(),
        roles,
        seen: &seen,
    };
    put_all(&mut listing, out, text)
}

// What is said of a peer that has these routes.
fn summary_under(peer: Peer, rows: PeerRows<'_>, roles: &Roles) -> PeerSummary
    requires few { length (peer_rows_left rows) < 2 ^ 63 }
    ensures { result ≡ summary_under roles.now (peer, peer_rows_left rows.entry) }
{
    let mut summary = PeerSummary {
        addr: Some(peer.addr),
        ..idle_summary(peer.asn, roles)
    };
    for row in rows {
        summary = one_more(summary, row.1);
    }
    summary
}

// With one route more, of this verdict.
fn one_more(summary: PeerSummary, verdict: Verdict) -> PeerSummary
    requires few { summary.routes < 2 ^ 63 }
    requires within { AreWithin summary }
    ensures { result ≡ one_more summary verdict }
{
    let routes = summary.routes + 1;
    match verdict {
        Verdict::Valid => PeerSummary {
            routes,
            valid: summary.valid + 1,
            ..summary
        },
        Verdict::Unknown => PeerSummary {
            routes,
            unknown: summary.unknown + 1,
            ..summary
        },
        Verdict::Invalid => PeerSummary {
            routes,
            invalid: summary.invalid + 1,
            ..summary
        },
    }
}

// What is said of an AS without routes.
fn idle_summary(asn: u32, roles: &Roles) -> PeerSummary
    ensures { result ≡ idle_summary roles.now asn }
{
    PeerSummary {
        addr: None,
        asn,
        role: roles.of(asn),
        own: roles.has_own(asn),
        routes: 0,
        valid: 0,
        unknown: 0,
        invalid: 0,
    }
}
