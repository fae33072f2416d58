//! The rows of `origins`, written line by line.
ghost use Rattle.std.specs.Prelude.{◌≡◌, ◌<◌, ◌≤◌, [], length, IfOk, OnOk, IsErrOf};
ghost use Rattle.std.specs.Io.KnownBytes.{append_known};
ghost use Rattle.av_base.specs.Told.{Grows, Rose};
ghost use Rattle.rib_store.specs.Trails.{trails_left};
ghost use Rattle.origin_validation.specs.Rows.{AreOriginRows};
ghost use Rattle.listings.specs.Listing.{Lists, pouring};
ghost use Rattle.listings.specs.EachOrigin.{ListsBefore, ListsFirst, ListsUpTo};
ghost use Rattle.listings.specs.Origins.{origin_row};

use av_base::{Sink, Stop, pour_piece};
use origin_model::origin_of;
use origin_validation::Origins;
use path_model::Key;
use report_text::PeerLines;
use rib_store::{RibStore, Trails};

/// Lists each route on a line, in key order, with the state of its origin by the records that are held (RFC 6811, section 2). The text is held,
/// and written in pieces. States that were looked up before are found; each other one is looked up, and held from then on.
pub fn put_origins<W: Sink>(
    store: &RibStore,
    origins: &mut Origins,
    out: &mut W,
    text: &mut Vec<u8>,
) -> Result<(), Stop>
    ensures same { origins.new ≡ origins.old }
    ensures lists { Lists (AreOriginRows store.now.state.routes origins.old) origin_row
        (pouring W.Sink out.old text.old.items) (pouring W.Sink out.new text.new.items) result }
{
    origins.make_room(store.counts().routes);
    put_each(store.trails(), origins, out, text)
}

// Lists each of these routes.
fn put_each<W: Sink>(
    trails: Trails<'_>,
    origins: &mut Origins,
    out: &mut W,
    text: &mut Vec<u8>,
) -> Result<(), Stop>
    ensures whole { OnOk result (ListsBefore origins.old (trails_left trails.entry) []
        (append_known (W.written out.old) text.old.items)
        (append_known (W.written out.new) text.new.items)) }
    ensures front { ListsFirst origins.old (trails_left trails.entry)
        (append_known (W.written out.old) text.old.items)
        (append_known (W.written out.new) text.new.items) }
    ensures same { origins.new ≡ origins.old }
    ensures held { IsErrOf result Stop.Sink → 0 < length text.new.items }
    ensures sink_cause { IsErrOf result Stop.Sink → Rose (W.faults out.old) (W.faults out.new) }
    ensures sink_faults { W.faults out.old ≤ W.faults out.new }
    ensures grows { Grows (W.written out.old) (W.written out.new) }
    ensures no_shelf { IsErrOf result Stop.Shelf → ⊥ }
{
    let mut left = trails;
    let mut lines = PeerLines::new();
    while let Some((key, origin)) = put_held(&mut left, origins, &mut lines, out, text)? {
        let state = origins.state(&key.prefix, origin)?;
        lines.put_origin(text, &key, state)?;
        pour_piece(out, text)?;
    }
    Ok(())
}

// Lists the routes up to the first whose state isn't held, and answers the key and the origin of that one, if there is one.
fn put_held<W: Sink>(
    left: &mut Trails<'_>,
    origins: &Origins,
    lines: &mut PeerLines,
    out: &mut W,
    text: &mut Vec<u8>,
) -> Result<Option<(Key, Option<u32>)>, Stop>
    ensures before { IfOk result (λ next. ListsUpTo next origins.now
        (trails_left left.old) (trails_left left.new)
        (append_known (W.written out.old) text.old.items)
        (append_known (W.written out.new) text.new.items)) }
    ensures front { ListsFirst origins.now (trails_left left.old)
        (append_known (W.written out.old) text.old.items)
        (append_known (W.written out.new) text.new.items) }
    ensures held { IsErrOf result Stop.Sink → 0 < length text.new.items }
    ensures sink_cause { IsErrOf result Stop.Sink → Rose (W.faults out.old) (W.faults out.new) }
    ensures sink_faults { W.faults out.old ≤ W.faults out.new }
    ensures grows { Grows (W.written out.old) (W.written out.new) }
    ensures no_shelf { IsErrOf result Stop.Shelf → ⊥ }
{
    let mut walk = origins.walk();
    while let Some((key, trail)) = left.next() {
        let origin = origin_of(trail);
        let Some(state) = walk.held(&key.prefix, origin) else {
            return Ok(Some((key, origin)));
        };
        lines.put_origin(text, &key, state)?;
        pour_piece(out, text)?;
    }
    Ok(None)
}
