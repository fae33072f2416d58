//! The leaks that Only-to-Customer marks.
ghost use Rattle.std.specs.Prelude.{map};
ghost use Rattle.listings.specs.EachLeak.{piece_of};
ghost use Rattle.listings.specs.Leaks.{AreLeaks, leak_row};
ghost use Rattle.listings.specs.Listing.{Lists, pouring};

use crate::listing::{Listing, put_all};
use av_base::{NoMemory, Sink, Stop};
use otc_check::{Leak, Marks, MarksIter, leak};
use path_model::Roles;
use report_text::PeerLines;

// The marks that are left.
#[derive(Drop)]
struct LeakLines<'m, 'r> {
    marks: MarksIter<'m>,
    roles: &'r Roles,
    lines: PeerLines,
}

impl<'m, 'r> Listing for LeakLines<'m, 'r> {
    ghost left = { λ l. map (piece_of l.roles.now) l.marks };

    fn put_next(&mut self, text: &mut Vec<u8>) -> Result<bool, NoMemory> {
        let Some((key, otc)) = self.marks.next() else {
            return Ok(false);
        };
        match leak(self.roles.of(key.peer.asn), key.peer.asn, otc) {
            Leak::Clean => Ok(true),
            found => {
                self.lines.put_leak(text, &key, found)?;
                Ok(true)
            }
        }
    }
}

/// Lists each route that its attribute Only-to-Customer marks as a leak on a line, in key order, by the present roles (RFC 9234, section 5).
/// The text is held, and written in pieces. What it costs is what the routes that have the attribute cost.
#[tactic(auto, using(crate::proofs::LeaksLemmas::leaks_listed))]
pub fn put_leaks<W: Sink>(
    marks: &Marks,
    roles: &Roles,
    out: &mut W,
    text: &mut Vec<u8>,
) -> Result<(), Stop>
    ensures { Lists (AreLeaks roles.now marks.now) leak_row
        (pouring W.Sink out.old text.old.items) (pouring W.Sink out.new text.new.items) result }
{
    let mut listing = LeakLines {
        marks: marks.iter(),
        roles,
        lines: PeerLines::new(),
    };
    put_all(&mut listing, out, text)
}
