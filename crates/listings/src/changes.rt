//! What changed.
ghost use Rattle.std.specs.Prelude.{map};
ghost use Rattle.rib_store.specs.Changes.{AreChanges};
ghost use Rattle.rib_store.specs.ChangesLeft.{changes_left};
ghost use Rattle.listings.specs.Changes.{change_row};
ghost use Rattle.listings.specs.Listing.{Lists, pouring};

use crate::listing::{Listing, put_all};
use av_base::{NoMemory, Sink, Stop};
use report_text::PeerLines;
use rib_store::{Journal, RibStore};

// The changes that are left.
#[derive(Drop)]
struct ChangeLines<'a> {
    journal: Journal<'a>,
    lines: PeerLines,
}

impl<'a> Listing for ChangeLines<'a> {
    ghost left = { λ l. map change_row (changes_left l.journal) };

    fn put_next(&mut self, text: &mut Vec<u8>) -> Result<bool, NoMemory> {
        let Some(change) = self.journal.next() else {
            return Ok(false);
        };
        self.lines
            .put_change(text, &change.key, change.before, change.after)?;
        Ok(true)
    }
}

/// Reports each key that stands otherwise than it was marked on a line, in key order. The text is held, and written in pieces.
pub fn put_changes<W: Sink>(store: &RibStore, out: &mut W, text: &mut Vec<u8>) -> Result<(), Stop>
    ensures { Lists (AreChanges store.now.state) change_row
        (pouring W.Sink out.old text.old.items) (pouring W.Sink out.new text.new.items) result }
{
    let mut listing = ChangeLines {
        journal: store.changes(),
        lines: PeerLines::new(),
    };
    put_all(&mut listing, out, text)
}
