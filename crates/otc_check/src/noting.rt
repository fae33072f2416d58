//! Changes of the marks, one by one.
ghost use Rattle.std.specs.Prelude.{◌≡◌, ◌+◌, ◌<◌, ◌^◌, [], ◌∷◌, drop, length, IfOk, List, OnOk};
ghost use Rattle.std.specs.FinMap as map;
ghost use Rattle.path_model.specs.declared.otc.Otc.{Otc as AnyOtc};
ghost use Rattle.path_model.specs.Batches.{announcements, changes_in, removals};
ghost use Rattle.path_model.specs.Notes.{announced_of};
ghost use Rattle.path_model.specs.Trail.{Path};
ghost use Rattle.otc_check.specs.Laws.{note_at};
ghost use Rattle.otc_check.specs.Marks.{marked_at, marks_of, noted_by, without_peer};

use av_base::NoMemory;
use path_model::{Batch, Change, Key, NlriList, Noted, Notes, Otc, Peer};
use route_map::RouteMap;

/// Notes what changes say of the attribute, from the first to the last.
pub(crate) fn note_all(marks: &mut RouteMap<Otc>, noted: &Noted) -> Result<(), NoMemory>
    ensures { OnOk result (marks_of marks.new
        ≡ noted_by noted.now.changes noted.now.notes (marks_of marks.old)) }
{
    // no index is over it
    let _len = noted.changes.len();
    let mut index: usize = 0;
    for batch in noted.changes.batches() {
        index = note_batch(marks, batch, &noted.notes, index)?;
    }
    Ok(())
}

// Notes what the changes of one batch say, and answers the index of the next announcement's note.
fn note_batch(
    marks: &mut RouteMap<Otc>,
    batch: &Batch,
    notes: &Notes,
    index: usize,
) -> Result<usize, NoMemory>
    requires { index + announced_of (changes_in batch.now) < 2 ^ 64 }
    ensures marks { OnOk result (marks_of marks.new
        ≡ noted_by (changes_in batch.now) (drop index notes.now) (marks_of marks.old)) }
    ensures next { IfOk result (λ next. next ≡ index + announced_of (changes_in batch.now)) }
{
    match batch {
        Batch::One(change) => note(marks, change, notes, index),
        Batch::RemoveAll(peer, nlris) => {
            withdraw_all(marks, *peer, nlris);
            Ok(index)
        }
        Batch::AnnounceAll(peer, _, nlris) => {
            announce_all(marks, *peer, nlris, notes, index)?;
            Ok(index + nlris.len())
        }
    }
}

// Notes what one change says.
fn note(
    marks: &mut RouteMap<Otc>,
    change: &Change,
    notes: &Notes,
    index: usize,
) -> Result<usize, NoMemory>
    requires { index + announced_of (change.now ∷ []) < 2 ^ 64 }
    ensures marks { OnOk result (marks_of marks.new
        ≡ noted_by (change.now ∷ []) (drop index notes.now) (marks_of marks.old)) }
    ensures next { IfOk result (λ next. next ≡ index + announced_of (change.now ∷ [])) }
{
    match change {
        Change::Remove(key) => {
            withdraw(marks, key);
            Ok(index)
        }
        Change::RemovePeer(peer) => {
            withdraw_peer(marks, peer);
            Ok(index)
        }
        Change::Announce(key, _) => {
            announce(marks, *key, note_of(notes, index))?;
            Ok(index + 1)
        }
    }
}

// The peer announces these, each with its note.
fn announce_all(
    marks: &mut RouteMap<Otc>,
    peer: Peer,
    nlris: &NlriList,
    notes: &Notes,
    first: usize,
) -> Result<(), NoMemory>
    requires { first + length nlris.now < 2 ^ 64 }
    ensures { OnOk result ((path : Path) → marks_of marks.new
        ≡ noted_by (announcements peer path nlris.now) (drop first notes.now)
        (marks_of marks.old)) }
{
    let mut index = first;
    for nlri in nlris.iter() {
        announce(marks, Key::new(peer, nlri), note_of(notes, index))?;
        index += 1;
    }
    Ok(())
}

// The peer withdraws these.
fn withdraw_all(marks: &mut RouteMap<Otc>, peer: Peer, nlris: &NlriList)
    ensures { (notes : List AnyOtc) → marks_of marks.new
        ≡ noted_by (removals peer nlris.now) notes (marks_of marks.old) }
{
    for nlri in nlris.iter() {
        withdraw(marks, &Key::new(peer, nlri));
    }
}

// The key's route has this attribute from now on.
fn announce(marks: &mut RouteMap<Otc>, key: Key, otc: Otc) -> Result<(), NoMemory>
    ensures { OnOk result (marks_of marks.new ≡ marked_at key otc (marks_of marks.old)) }
{
    match otc {
        Otc::Absent => withdraw(marks, &key),
        Otc::As(_) | Otc::Malformed => {
            marks.insert(key, otc)?;
        }
    }
    Ok(())
}

// The key has no route from now on.
fn withdraw(marks: &mut RouteMap<Otc>, key: &Key)
    ensures { marks_of marks.new ≡ map.remove (marks_of marks.old) key.now }
{
    marks.remove(key);
}

// The peer has no route from now on. It costs what its marks cost.
fn withdraw_peer(marks: &mut RouteMap<Otc>, peer: &Peer)
    ensures { marks_of marks.new ≡ without_peer peer.now (marks_of marks.old) }
{
    while let Some(key) = marks.one_of(peer) {
        withdraw(marks, &key);
    }
}

// The note of the announcement with this index.
fn note_of(notes: &Notes, index: usize) -> Otc
    ensures { result ≡ note_at notes.now index }
{
    notes.get(index).unwrap_or(Otc::Absent)
}
