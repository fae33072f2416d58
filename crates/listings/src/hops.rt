//! The hops of a path, with what their ASes attest of each other.
ghost use Rattle.std.specs.Prelude.{◌≡◌, ◌+◌, ◌<◌, ◌≤◌, [], length, if◌then◌else◌};
ghost use Rattle.listings.specs.EachHop.{pieces_from};
ghost use Rattle.listings.specs.Hops.{AreHops, explained_text, hop_at, hop_row};
ghost use Rattle.listings.specs.Listing.{Listed, Lists, pouring};

use crate::listing::{Listing, put_all};
use av_base::{NoMemory, Sink, Stop};
use path_model::{Table, Trail, Verdict, Witness};
use report_text::{Hop, put_hop, put_why};

// The hops that are left of a chain of ASes, from the origin on.
#[derive(Drop)]
struct HopLines<'a, T: Table> {
    table: &'a T,
    chain: &'a [u32],
    // where the next one begins
    place: usize,
    ghost short: { length chain.now ≤ 65535 },
}

impl<'a, T: Table> Listing for HopLines<'a, T> {
    ghost left = { λ l. pieces_from (T.rows l.table.now) l.chain.now l.place };

    fn put_next(&mut self, text: &mut Vec<u8>) -> Result<bool, NoMemory> {
        if self.place >= self.chain.len() || self.place + 1 >= self.chain.len() {
            return Ok(false);
        }
        put_hop(text, hop_at(self.table, self.chain, self.place))?;
        self.place += 1;
        Ok(true)
    }
}

/// Lists each hop of a path on a line, from the origin on, with what its two ASes attest of each other; none where the path has an AS_SET. The
/// text is held, and written in pieces. It takes two look-ups a hop.
pub fn put_hops<T: Table, W: Sink>(
    table: &T,
    trail: &Trail,
    out: &mut W,
    text: &mut Vec<u8>,
) -> Result<(), Stop>
    ensures { Lists (AreHops (T.rows table.now) trail.now) hop_row
        (pouring W.Sink out.old text.old.items) (pouring W.Sink out.new text.new.items) result }
{
    let mut listing = HopLines {
        table,
        chain: ases_of(trail),
        place: 0,
    };
    put_all(&mut listing, out, text)
}

/// Explains a path: its verdict and the witness on a line, and then its hops as [`put_hops`] lists them.
pub fn put_explained<T: Table, W: Sink>(
    table: &T,
    trail: &Trail,
    verdict: Verdict,
    witness: Witness,
    out: &mut W,
    text: &mut Vec<u8>,
) -> Result<(), Stop>
    ensures { Listed (explained_text (T.rows table.now) trail.now verdict witness)
        (pouring W.Sink out.old text.old.items) (pouring W.Sink out.new text.new.items) result }
{
    put_why(text, verdict, witness)?;
    put_hops(table, trail, out, text)
}

// The ASes of a path's hops, from the origin on: none where it has an AS_SET.
fn ases_of(trail: &Trail) -> &[u32]
    ensures ases { result.now ≡ (if trail.now.set then [] else trail.now.chain) }
    ensures short { length result.now ≤ 65535 }
{
    if trail.is_set() {
        return &[];
    }
    trail.chain().as_slice()
}

// The hop that begins at this place.
fn hop_at<T: Table>(table: &T, chain: &[u32], place: usize) -> Hop
    requires within { place + 1 < length chain.now }
    requires short { length chain.now ≤ 65535 }
    ensures { result ≡ hop_at (T.rows table.now) chain.now place }
{
    let from = chain[place];
    let to = chain[place + 1];
    Hop {
        number: (place + 1) as u32,
        from,
        to,
        climb: table.authority(from, to),
        descend: table.authority(to, from),
    }
}
