//! What was marked, beside what the cases tell of it.
ghost use Rattle.std.specs.Prelude.{◌≡◌, ◌||◌, ℕ, nat_eq, true, false, [], None, Some, IsTrue, IfOk, OnOk};
ghost use Rattle.std.specs.BTreeMap.{is_at};
ghost use Rattle.std.specs.Map.{lookup};
ghost use Rattle.std.specs.Option.{option_map};
ghost use Rattle.path_model.specs.declared.key.Key.{Key as AnyKey};
ghost use Rattle.path_model.specs.Key.{key_cmp};
ghost use Rattle.route_map.specs.Keys.{has_key, IsReverse};
ghost use Rattle.shared_cases.specs.Cases.{at, marked_or};
ghost use Rattle.shared_cases.specs.Numbers.{has as numbers_have};
ghost use Rattle.rib_store.specs.Marks.{is_key_of, AreCovered, AreIdle, AreKeysOfRoutes, AreOfPeers, Defers, FollowsIn, IsCaseAt, NotesCases, TellsMarks};
ghost use Rattle.rib_store.specs.Steps.{kept_note, or_noted, Notes, NotesMove};

use crate::journal::mark_of;
use av_base::NoMemory;
use path_model::{Key, Verdict};
use route_map::{KeysByNumber, RouteMap};
use shared_cases::{FoundCases, SharedCases};
use std::alloc::Global;

// Once verdicts were marked, a note of each key whose route changed since, or whose case got another verdict than the marked one and isn't
// pending: what was marked of the key. Of each other key its case tells it. Each note is of a key that has a route, or had one at the mark.
#[derive(Drop)]
pub(crate) struct Marks {
    // whether verdicts were ever marked; before, there are no notes, and none are pending
    pub(crate) is_marked: bool,
    // none, where the key had no route at the mark
    pub(crate) notes: RouteMap<Option<Verdict>>,
    // the numbers of the cases whose keys are still to be noted
    pub(crate) pending: FoundCases,
    // the keys of each case, from when some are first noted by their case
    pub(crate) keys: Option<KeysByNumber>,
}

impl Marks {
    // Nothing was marked yet. It takes no memory.
    pub(crate) fn new(alloc: Global) -> Marks
        ensures marked { result.is_marked ≡ false }
        ensures notes { result.notes ≡ [] }
        ensures keys { result.keys ≡ None }
    {
        Marks {
            is_marked: false,
            notes: RouteMap::new(alloc),
            pending: FoundCases::new(alloc),
            keys: None,
        }
    }

    // Whether nothing was marked, so that no key has to be noted, and the keys of the cases aren't held either.
    pub(crate) fn are_idle(&self) -> bool
        ensures { IsTrue result → AreIdle self.now }
    {
        !self.is_marked && self.keys.is_none()
    }

    // A key that had the case `before`, if it had one, has `after` from now on. It takes a few look-ups, and where these are the same
    // none.
    #[inline(always)]
    pub(crate) fn follow(
        &mut self,
        cases: &SharedCases,
        key: &Key,
        before: Option<u32>,
        after: Option<u32>,
    ) -> Result<(), NoMemory>
        requires { IsCaseAt self.old.keys key.now before }
        ensures noted { OnOk result (NotesMove self.old.is_marked self.old.notes key.now before after
            (option_map (λ n. marked_or (at cases.now n)) before) self.new.notes) }
        ensures keys { OnOk result (FollowsIn self.old.keys key.now after self.new.keys) }
        ensures same { self.new.is_marked ≡ self.old.is_marked }
        ensures pending { self.new.pending ≡ self.old.pending }
    {
        note(&mut self.notes, self.is_marked, cases, key, before, after)?;
        match &mut self.keys {
            None => Ok(()),
            Some(keys) => keys.follow(key, before, after),
        }
    }

    // These cases got another verdict than the marked one, each for the first time since the mark: their keys are to be noted. It takes
    // a step for each.
    pub(crate) fn defer(&mut self, numbers: &FoundCases) -> Result<(), NoMemory>
        ensures deferred { OnOk result (Defers self.old.is_marked self.old.pending numbers.now
            self.new.pending) }
        ensures same { self.new.is_marked ≡ self.old.is_marked }
        ensures notes { self.new.notes ≡ self.old.notes }
        ensures keys { self.new.keys ≡ self.old.keys }
    {
        if !self.is_marked {
            return Ok(());
        }
        self.pending.append(numbers)
    }

    // The keys of the pending cases are noted. Their numbers are made rising (`FoundCases::settle`), and it takes the time of a look-up for each
    // pending case and each peer that has one of its keys, and of these keys, and the first time that of all routes.
    pub(crate) fn gather(
        &mut self,
        alloc: Global,
        routes: &RouteMap<u32>,
        cases: &SharedCases,
    ) -> Result<(), NoMemory>
        requires of_peers { AreOfPeers routes.now cases.now }
        requires held { AreKeysOfRoutes self.old.keys routes.now }
        ensures told { OnOk result (TellsMarks routes.now cases.now self.old.notes self.new.notes) }
        ensures covered { OnOk result (AreCovered routes.now cases.now self.old.pending
            self.new.notes) }
        ensures keys { OnOk result (AreKeysOfRoutes self.new.keys routes.now) }
        ensures pending { OnOk result (self.new.pending ≡ []) }
        ensures same { self.new.is_marked ≡ self.old.is_marked }
    {
        if self.pending.is_empty() {
            return Ok(());
        }
        // a number may stand there again, where another case got it, and the keys of a case are gone over once
        self.pending.settle()?;
        let keys = take_keys(&mut self.keys, alloc, routes)?;
        note_each(&mut self.notes, &keys, cases, &self.pending)?;
        self.keys = Some(keys);
        self.pending = FoundCases::new(alloc);
        Ok(())
    }
}

// The keys of the cases, which are held for as long as they follow the routes.
fn take_keys(
    keys: &mut Option<KeysByNumber>,
    alloc: Global,
    routes: &RouteMap<u32>,
) -> Result<KeysByNumber, NoMemory>
    requires { AreKeysOfRoutes keys.old routes.now }
    ensures { IfOk result (λ held. IsReverse held routes.now) }
{
    match keys.take() {
        None => KeysByNumber::of_routes(alloc, routes),
        Some(held) => Ok(held),
    }
}

// Notes what was marked of a key that had the case `before`, if it had one, and has `after` from now on. It doesn't where these are the
// same, nor where the key has a note already or nothing was marked yet; and a key that came since the mark and goes has no note.
fn note(
    notes: &mut RouteMap<Option<Verdict>>,
    is_marked: bool,
    cases: &SharedCases,
    key: &Key,
    before: Option<u32>,
    after: Option<u32>,
) -> Result<(), NoMemory>
    ensures { OnOk result (NotesMove is_marked notes.old key.now before after
        (option_map (λ n. marked_or (at cases.now n)) before) notes.new) }
{
    if !is_marked || before == after {
        return Ok(());
    }
    note_first(notes, *key, mark_of(cases, before))?;
    if after.is_none() {
        forget_none(notes, key);
    }
    Ok(())
}

// Lets the note of a key go that says that it had no route: it has none again. It takes no memory.
fn forget_none(notes: &mut RouteMap<Option<Verdict>>, key: &Key)
    ensures { (q : AnyKey) → lookup (is_at (key_cmp q)) notes.new
        ≡ kept_note None (is_at (key_cmp key.now) q) (lookup (is_at (key_cmp q)) notes.old) }
{
    if let Some(None) = notes.get(key) {
        notes.remove(key);
    }
}

// Notes what was marked of the keys of these cases.
fn note_each(
    notes: &mut RouteMap<Option<Verdict>>,
    keys: &KeysByNumber,
    cases: &SharedCases,
    numbers: &FoundCases,
) -> Result<(), NoMemory>
    ensures { OnOk result (NotesCases keys.now cases.now numbers.now notes.old notes.new) }
{
    for number in numbers.as_slice() {
        note_case(notes, keys, cases, *number as usize)?;
    }
    Ok(())
}

// Notes what was marked of the keys of one case.
fn note_case(
    notes: &mut RouteMap<Option<Verdict>>,
    keys: &KeysByNumber,
    cases: &SharedCases,
    number: usize,
) -> Result<(), NoMemory>
    ensures { OnOk result ((q : AnyKey) → lookup (is_at (key_cmp q)) notes.new
        ≡ or_noted (lookup (is_at (key_cmp q)) notes.old)
        (is_key_of (at cases.now number) keys.now number q) (Some (marked_or (at cases.now number)))) }
{
    let Some(case) = cases.get(number) else {
        return Ok(());
    };
    let short = u32::try_from(number).ok().ok_or(NoMemory)?;
    let of_case = keys.of(case.asn, short)?;
    note_all(notes, &of_case, Some(case.marked))
}

// Notes of these keys that this was marked.
fn note_all(
    notes: &mut RouteMap<Option<Verdict>>,
    keys: &[Key],
    marked: Option<Verdict>,
) -> Result<(), NoMemory>
    ensures { OnOk result ((q : AnyKey) → lookup (is_at (key_cmp q)) notes.new
        ≡ or_noted (lookup (is_at (key_cmp q)) notes.old) (has_key keys.now q) marked) }
{
    for key in keys {
        note_first(notes, *key, marked)?;
    }
    Ok(())
}

// Notes what was marked of a key, unless that is noted already.
fn note_first(
    notes: &mut RouteMap<Option<Verdict>>,
    key: Key,
    marked: Option<Verdict>,
) -> Result<(), NoMemory>
    ensures { OnOk result (Notes true notes.old key marked notes.new) }
{
    if notes.get(&key).is_some() {
        return Ok(());
    }
    notes.insert(key, marked)?;
    Ok(())
}
