//! The store of routes beside plain lists: after each of many drawn events all routes are judged from scratch, and compared with the
//! store's rows; what changed since verdicts were marked is worked out from two such lists, and compared with the store's changes,
//! which are gathered before most of the time.
ghost use Rattle.std.specs.Prelude.{◌≡◌};

use crate::drawing::Draw;
use crate::drawn_events::next_event;
use crate::plain::{Plain, Sides};
use crate::replaying::{gather, happen, mark};
use analyser::Analyser;
use av_base::{NoMemory, Steps};
use path_model::{Key, Verdict};
use std::alloc::Global;
use std::collections::BTreeMap;
use std::marker::Brand;
use std::sync::ledger::{Blank, Ledger};

// How many events there are.
const EVENTS: u32 = 2_000;

// How many events left the same routes with the same verdicts and the same changes, and how many valid, unknown and invalid routes and how
// many changes were compared.
#[derive(Clone, Copy, Debug, Default)]
struct Compared {
    same: u32,
    valid: u32,
    unknown: u32,
    invalid: u32,
    changes: u32,
}

impl Compared {
    fn count(&mut self, verdict: Verdict) {
        match verdict {
            Verdict::Valid => self.valid = self.valid.saturating_add(1),
            Verdict::Unknown => self.unknown = self.unknown.saturating_add(1),
            Verdict::Invalid => self.invalid = self.invalid.saturating_add(1),
        }
    }

    // All events left the same, and there was enough to compare.
    fn is_ample(&self) -> bool {
        self.same == EVENTS
            && self.valid > 1_000
            && self.unknown > 1_000
            && self.invalid > 1_000
            && self.changes > 1_000
    }
}

// Whether the store has these rows and no others.
fn has_rows(analyser: &Analyser, wanted: &BTreeMap<Key, Verdict>, compared: &mut Compared) -> bool {
    let mut rows = analyser.store().rows();
    for (key, verdict) in wanted {
        let Some((shown, shown_verdict)) = rows.next() else {
            return false;
        };
        if shown != *key || shown_verdict != *verdict {
            return false;
        }
        compared.count(*verdict);
    }
    rows.next().is_none()
}

// Whether the store lists these changes and no others.
fn has_changes(
    analyser: &Analyser,
    wanted: &BTreeMap<Key, Sides>,
    compared: &mut Compared,
) -> bool {
    let mut changes = analyser.store().changes();
    for (key, sides) in wanted {
        let Some(change) = changes.next() else {
            return false;
        };
        if change.key != *key || change.before != sides.before || change.after != sides.after {
            return false;
        }
        compared.changes = compared.changes.saturating_add(1);
    }
    changes.next().is_none()
}

// Draws one event, has it happen, and compares.
fn replay_one<L: Ledger>(
    analyser: Analyser,
    drawn: &mut Draw,
    plain: &mut Plain,
    compared: &mut Compared,
    steps: &mut Steps<L>,
) -> Result<Analyser, NoMemory> {
    let event = next_event(drawn, plain)?;
    let analyser = happen(analyser, event, steps)?;
    let analyser = if drawn.four() != 0 {
        gather(analyser)?
    } else {
        analyser
    };
    let now = plain.verdicts(steps)?;
    compare(&analyser, plain, &now, compared)?;
    if drawn.four() != 0 {
        return Ok(analyser);
    }
    plain.marked = now;
    Ok(mark(analyser))
}

fn compare(
    analyser: &Analyser,
    plain: &Plain,
    now: &BTreeMap<Key, Verdict>,
    compared: &mut Compared,
) -> Result<(), NoMemory> {
    let changes = plain.changes(now)?;
    if has_rows(analyser, now, compared) && has_changes(analyser, &changes, compared) {
        compared.same = compared.same.saturating_add(1);
    }
    Ok(())
}

fn replayed<L: Ledger>(alloc: Global, blank: Blank) -> Result<Compared, NoMemory>
    requires name { blank.name ≡ L.name }
    requires parts { blank.parts ≡ L.parts }
    requires one { L.parts ≡ 1 }
{
    let mut steps = Steps::<L>::new(blank);
    let mut plain = Plain::new(alloc);
    let mut drawn = Draw { state: 1 };
    let mut analyser = Analyser::new(alloc)?;
    let mut compared = Compared::default();
    for _ in 0..EVENTS {
        analyser = replay_one(analyser, &mut drawn, &mut plain, &mut compared, &mut steps)?;
    }
    Ok(compared)
}

// Replays them with a counter that is made here.
fn replayed_once(alloc: Global) -> Result<Compared, NoMemory> {
    replayed::<Brand>(alloc, Blank::new(1))
}

#[test]
fn judged_from_scratch(rt: HostRuntime) -> Result<(), NoMemory> {
    let compared = replayed_once(rt.alloc())?;
    assert!(rt; compared.is_ample(), "{compared:?}");
    Ok(())
}
