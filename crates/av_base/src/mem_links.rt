//! Links in memory.
ghost use Rattle.std.specs.Prelude.{◌≡◌, ◌-◌, ◌^◌, ◌<◌, ◌≤◌, [], ◌∷◌, ◌++◌, length, take, drop, map, slice_get, is_some, IfOk, OnOk, OnErr, IfSome, IfNone, Some, None, refl, if◌then◌else◌};
ghost use Rattle.std.specs.String.{string_bytes};
ghost use Rattle.std.specs.Result.{result_ok};
ghost use Rattle.av_base.specs.Connections.{Connects, AddsAttempt, ToldLater, IsUsable, IsOpen, Made, Failed, Unaccepted, standing_of, new_standing, to_come_of, sends, receives, breaks, closes, stands_broken, stands_closed};
ghost use Rattle.av_base.specs.LinksInMemory.{Accepts, Makes, MakesNext, Keeps, ListsFailed, ReceivesByPlan, SameElse, calls, listed, next_at, nothing_made, puts, standings_of};
ghost use Rattle.av_base.specs.Kept.{IsNextAt, LeavesOthers, attempt_of, attempts_of, coming_of, waiting_of};
ghost use Rattle.av_base.specs.Plan.{moved_by};
ghost use Rattle.av_base.specs.Told.{HasCause, Took};
ghost use Rattle.av_base.specs.declared.standing.Break.TheVariants.{BySend, ByRecv};

use crate::kept_attempt::{KeptAttempt, KeptComing};
use crate::mem_link::MemLink;
use crate::{Break, Fault, Links, NoMemory, Plan};
use std::alloc::Global;
use std::marker::Model;

/// Connections in memory. They tell everything, and connect, accept, send and receive as their plan says, a step for each such call. Where
/// they can't grow they count a fault. Where a failed attempt can't even be listed, the attempts are cut and no longer told.
#[derive(Drop)]
pub struct MemLinks {
    links: Vec<MemLink>,
    // what later connections will receive, those at one place in their order
    coming: Vec<KeptComing>,
    // what later callers send, those at one place in their order
    callers: Vec<KeptComing>,
    // `None` once there was no memory to list one
    attempts: Option<Vec<KeptAttempt>>,
    plan: Plan,
    faults: u64,
    alloc: Global,
}

/// A contract sees all of it.
impl Model for MemLinks {
    ghost use Rattle.std.specs.Prelude.{map};
    ghost use Rattle.av_base.specs.LinksInMemory.{LinksInMemory};
    ghost use Rattle.av_base.specs.Kept.{attempts_of, coming_of};

    ghost Value = { LinksInMemory };

    ghost view = { λ s. record { links = s.links.items; coming = map coming_of s.coming.items; callers = map coming_of s.callers.items; attempts = attempts_of s.attempts; plan = s.plan; faults = s.faults } };
}

impl MemLinks {
    /// No connection was made, and no fault counted.
    pub fn new(alloc: Global, plan: Plan) -> MemLinks
        ensures { result ≡ nothing_made plan }
    {
        MemLinks {
            links: Vec::new(alloc),
            coming: Vec::new(alloc),
            callers: Vec::new(alloc),
            attempts: Some(Vec::new(alloc)),
            plan,
            faults: 0,
            alloc,
        }
    }

    /// Adds what a later connection to a place will receive, behind what was put there before.
    pub fn put(&mut self, place: &str, bytes: &[u8]) -> Result<(), NoMemory>
        ensures ok { OnOk result (self.new ≡ puts place.now bytes.now self.old) }
        ensures err { OnErr result (self.new ≡ self.old) }
    {
        let coming = KeptComing {
            place: String::from_str(self.alloc, place)?,
            bytes: Vec::from_slice(self.alloc, bytes)?,
        };
        self.coming.push(coming)?;
        Ok(())
    }

    /// Adds a caller at a place with the bytes that it sends, behind those that wait there already.
    pub fn put_caller(&mut self, place: &str, bytes: &[u8]) -> Result<(), NoMemory>
        ensures ok { OnOk result (self.new ≡ calls place.now bytes.now self.old) }
        ensures err { OnErr result (self.new ≡ self.old) }
    {
        let caller = KeptComing {
            place: String::from_str(self.alloc, place)?,
            bytes: Vec::from_slice(self.alloc, bytes)?,
        };
        self.callers.push(caller)?;
        Ok(())
    }

    /// The bytes sent on a connection.
    pub fn sent(&self, link: u32) -> &[u8]
        requires { link < length self.now.links }
        ensures { IfSome (slice_get self.now.links link) (λ t. result.now ≡ t.sent) }
    {
        self.links[link as usize].sent()
    }

    /// Whether the attempts are still told: they are until there was no memory to list a failed one.
    pub fn tells_attempts(&self) -> bool
        ensures { result ≡ is_some self.now.attempts }
    {
        self.attempts.is_some()
    }

    // Makes a connection of what is coming, where the plan, the places and memory let it.
    fn make(&mut self, place: &str) -> Option<u32>
        ensures made { IfSome result (λ link. Makes self.old self.new place.now link) }
        ensures none { IfNone result (Keeps self.old self.new) }
        ensures plan { self.new.plan ≡ drop 1 self.old.plan }
        ensures faults { self.new.faults ≡ self.old.faults }
    {
        make_next(
            self.alloc,
            &mut self.coming,
            &mut self.links,
            &mut self.attempts,
            &mut self.plan,
            place,
        )
    }

    // The same of a caller.
    fn admit(&mut self, place: &str) -> Option<u32>
        ensures made { IfSome result (λ link. Accepts self.old self.new place.now link) }
        ensures none { IfNone result (Keeps self.old self.new) }
        ensures plan { self.new.plan ≡ drop 1 self.old.plan }
        ensures faults { self.new.faults ≡ self.old.faults }
    {
        make_next(
            self.alloc,
            &mut self.callers,
            &mut self.links,
            &mut self.attempts,
            &mut self.plan,
            place,
        )
    }
}

impl Links for MemLinks {
    ghost standings = { λ s. map standing_of s.links };

    ghost wire = { λ s. Some s.links };

    ghost attempts = { λ s. s.attempts };

    ghost faults = { λ s. s.faults };

    ghost agrees = { λ _. refl };

    fn connect(&mut self, place: &str) -> Result<u32, Fault>
        ensures number { IfOk result (λ link. link ≡ length (standings_of self.old.links)) }
        ensures room { OnOk result (length (standings_of self.old.links) < 2 ^ 32 - 1) }
        ensures ok { OnOk result (Connects (Some self.old.links) (Some self.new.links) place.now) }
        ensures ok_standings { OnOk result (standings_of self.new.links ≡ standings_of self.old.links ++ new_standing ∷ []) }
        ensures made { IfOk result (λ link. AddsAttempt self.old.attempts self.new.attempts (Made link)) }
        ensures err { OnErr result (self.new.links ≡ self.old.links) }
        ensures err_standings { OnErr result (standings_of self.new.links ≡ standings_of self.old.links) }
        ensures failed { OnErr result (AddsAttempt self.old.attempts self.new.attempts (Failed place.now)) }
        ensures later { ToldLater (Some self.old.links) (Some self.new.links) }
        ensures cause { HasCause self.old.faults self.new.faults result }

        // It connects only where the plan lets it and something is left for the place, which it takes.
        ensures makes { IfOk result (λ link. Makes self.old self.new place.now link) }
        ensures fails { OnErr result (ListsFailed self.old.attempts self.new.attempts (Failed place.now)) }
        ensures coming { OnErr result (self.new.coming ≡ self.old.coming) }
        ensures callers { self.new.callers ≡ self.old.callers }
        ensures plan { self.new.plan ≡ drop 1 self.old.plan }
    {
        match self.make(place) {
            Some(link) => Ok(link),
            None => {
                self.faults = self.faults.saturating_add(1);
                list_failed(self.alloc, &mut self.attempts, place, false);
                Err(Fault)
            }
        }
    }

    fn accept(&mut self, place: &str) -> Result<u32, Fault>
        ensures number { IfOk result (λ link. link ≡ length (standings_of self.old.links)) }
        ensures room { OnOk result (length (standings_of self.old.links) < 2 ^ 32 - 1) }
        ensures ok { OnOk result (Connects (Some self.old.links) (Some self.new.links) place.now) }
        ensures ok_standings { OnOk result (standings_of self.new.links ≡ standings_of self.old.links ++ new_standing ∷ []) }
        ensures made { IfOk result (λ link. AddsAttempt self.old.attempts self.new.attempts (Made link)) }
        ensures err { OnErr result (self.new.links ≡ self.old.links) }
        ensures err_standings { OnErr result (standings_of self.new.links ≡ standings_of self.old.links) }
        ensures failed { OnErr result (AddsAttempt self.old.attempts self.new.attempts (Unaccepted place.now)) }
        ensures later { ToldLater (Some self.old.links) (Some self.new.links) }
        ensures cause { HasCause self.old.faults self.new.faults result }

        // It accepts only where the plan lets it and a caller waits at the place, who is the next.
        ensures makes { IfOk result (λ link. Accepts self.old self.new place.now link) }
        ensures fails { OnErr result (ListsFailed self.old.attempts self.new.attempts (Unaccepted place.now)) }
        ensures coming { self.new.coming ≡ self.old.coming }
        ensures callers { OnErr result (self.new.callers ≡ self.old.callers) }
        ensures plan { self.new.plan ≡ drop 1 self.old.plan }
    {
        match self.admit(place) {
            Some(link) => Ok(link),
            None => {
                self.faults = self.faults.saturating_add(1);
                list_failed(self.alloc, &mut self.attempts, place, true);
                Err(Fault)
            }
        }
    }

    fn send(&mut self, link: u32, buf: &[u8]) -> Result<usize, Fault>
        requires some_bytes { 0 < length buf.now }
        requires usable { IsUsable (standings_of self.old.links) link }
        ensures some { IfOk result (λ n. 0 < n) }
        ensures bound { IfOk result (λ n. n ≤ length buf.now) }
        ensures sent { IfOk result (λ n. self.new.links ≡ sends link (take n buf.now) self.old.links) }
        ensures ok_standings { OnOk result (standings_of self.new.links ≡ standings_of self.old.links) }
        ensures err { OnErr result (self.new.links ≡ breaks link BySend self.old.links) }
        ensures err_standings { OnErr result (standings_of self.new.links ≡ stands_broken link BySend (standings_of self.old.links)) }
        ensures later { ToldLater (Some self.old.links) (Some self.new.links) }
        ensures cause { HasCause self.old.faults self.new.faults result }

        // It sends what the plan's next step says, unless there is no memory.
        ensures follows { IfOk result (λ n. moved_by self.old.plan (length buf.now) ≡ Some n) }
        ensures same { SameElse self.old self.new }
    {
        let connection = &mut self.links[link as usize];
        let Some(count) = self.plan.step(buf.len()) else {
            connection.break_by(Break::BySend);
            self.faults = self.faults.saturating_add(1);
            return Err(Fault);
        };
        let (piece, _) = buf.split_at(count);
        match connection.send(piece) {
            Ok(()) => Ok(count),
            Err(NoMemory) => {
                connection.break_by(Break::BySend);
                self.faults = self.faults.saturating_add(1);
                Err(Fault)
            }
        }
    }

    fn recv(&mut self, link: u32, buf: &mut [u8]) -> Result<usize, Fault>
        requires some_room { 0 < length buf.old }
        requires usable { IsUsable (standings_of self.old.links) link }
        ensures bound { IfOk result (λ n. n ≤ length buf.new) }
        ensures bytes { IfOk result (λ n. Took (to_come_of (Some self.old.links) link) (to_come_of (Some self.new.links) link) n buf.new) }
        ensures received { IfOk result (λ n. self.new.links ≡ receives link (take n buf.new) self.old.links) }
        ensures ok_standings { OnOk result (standings_of self.new.links ≡ standings_of self.old.links) }
        ensures err { OnErr result (self.new.links ≡ breaks link ByRecv self.old.links) }
        ensures err_standings { OnErr result (standings_of self.new.links ≡ stands_broken link ByRecv (standings_of self.old.links)) }
        ensures later { ToldLater (Some self.old.links) (Some self.new.links) }
        ensures cause { HasCause self.old.faults self.new.faults result }

        // It does exactly what the plan's next step says.
        ensures follows { ReceivesByPlan self.old link (length buf.old) (result_ok result) }
        ensures same { SameElse self.old self.new }
    {
        let connection = &mut self.links[link as usize];
        let len = connection.to_come().min(buf.len());
        match self.plan.step(len) {
            Some(count) => {
                connection.recv(&mut buf[..count]);
                Ok(count)
            }
            None => {
                connection.break_by(Break::ByRecv);
                self.faults = self.faults.saturating_add(1);
                Err(Fault)
            }
        }
    }

    fn close(&mut self, link: u32)
        requires { IsOpen (standings_of self.old.links) link }
        ensures closed { self.new.links ≡ closes link self.old.links }
        ensures standings { standings_of self.new.links ≡ stands_closed link (standings_of self.old.links) }
        ensures later { ToldLater (Some self.old.links) (Some self.new.links) }
        ensures coming { self.new.coming ≡ self.old.coming }
        ensures callers { self.new.callers ≡ self.old.callers }
        ensures attempts { self.new.attempts ≡ self.old.attempts }
        ensures plan { self.new.plan ≡ self.old.plan }
        ensures faults { self.new.faults ≡ self.old.faults }
    {
        self.links[link as usize].close();
    }
}

// Makes a connection of what waits next at a place, where the plan, the places and memory let it.
fn make_next(
    alloc: Global,
    waiting: &mut Vec<KeptComing>,
    links: &mut Vec<MemLink>,
    attempts: &mut Option<Vec<KeptAttempt>>,
    plan: &mut Plan,
    place: &str,
) -> Option<u32>
    ensures made { IfSome result (λ link. MakesNext
        (waiting_of waiting.old.items links.old.items (attempts_of attempts.old) plan.old)
        (waiting_of waiting.new.items links.new.items (attempts_of attempts.new) plan.new)
        place.now link) }
    ensures waiting { IfNone result (waiting.new.items ≡ waiting.old.items) }
    ensures links { IfNone result (links.new.items ≡ links.old.items) }
    ensures attempts { IfNone result (attempts_of attempts.new ≡ attempts_of attempts.old) }
    ensures plan { plan.new ≡ drop 1 plan.old }
{
    plan.step(0)?;
    let index = find_next(waiting, place)?;
    if links.len() >= u32::MAX as usize {
        return None;
    }
    let link = links.len() as u32;
    if links.reserve(1).is_err() {
        return None;
    }
    if list_made(attempts, link).is_err() {
        return None;
    }
    let next = waiting.remove(index);
    let made = MemLink::new(alloc, next.place, next.bytes);
    match links.push(made) {
        Ok(()) => Some(link),
        Err(_) => None,
    }
}

// Lists an attempt to connect or to accept that failed, or cuts the attempts.
fn list_failed(alloc: Global, attempts: &mut Option<Vec<KeptAttempt>>, place: &str, accepts: bool)
    ensures { ListsFailed (attempts_of attempts.old) (attempts_of attempts.new)
        (if accepts then Unaccepted place.now else Failed place.now) }
{
    let Some(kept) = attempts else {
        return;
    };
    let Ok(place) = String::from_str(alloc, place) else {
        *attempts = None;
        return;
    };
    let attempt = failed(place, accepts);
    if kept.push(attempt).is_err() {
        *attempts = None;
    }
}

fn failed(place: String, accepts: bool) -> KeptAttempt
    ensures { attempt_of result ≡ (if accepts then Unaccepted (string_bytes place) else Failed (string_bytes place)) }
{
    if accepts {
        KeptAttempt::Unaccepted(place)
    } else {
        KeptAttempt::Failed(place)
    }
}

// Lists an attempt that made a connection, unless they are cut.
fn list_made(attempts: &mut Option<Vec<KeptAttempt>>, link: u32) -> Result<(), NoMemory>
    ensures ok { OnOk result (attempts_of attempts.new ≡ listed (attempts_of attempts.old) (Made link)) }
    ensures err { OnErr result (attempts_of attempts.new ≡ attempts_of attempts.old) }
{
    if let Some(kept) = attempts {
        kept.push(KeptAttempt::Made(link))?;
    }
    Ok(())
}

// Where in these the next one for a place stands.
fn find_next(coming: &[KeptComing], place: &str) -> Option<usize>
    ensures none { IfNone result (next_at (map coming_of coming.now) place.now ≡ None) }
    ensures within { IfSome result (λ i. i < length coming.now) }
    ensures found { IfSome result (λ i. IsNextAt coming.now place.now i) }
    ensures rest { IfSome result (λ i. LeavesOthers coming.now place.now i) }
{
    for (i, next) in coming.iter().enumerate() {
        if next.place.as_str() == place {
            return Some(i);
        }
    }
    None
}
