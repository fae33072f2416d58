//! A judgement: the verdict of a path and its printed witness, read from the ramps.
ghost use Rattle.std.specs.Prelude.{◌≡◌, ◌+◌, ◌≤◌, IfNone, IfSome};
ghost use Rattle.path_model.specs.RightVerdict.{IsInvalidAtOnce};
ghost use Rattle.path_model.specs.Witness.{shown_by};
ghost use Rattle.path_model.specs.PrintedWitness.{IsPrinted};
ghost use Rattle.path_model.specs.WitnessByRamps.{climb_of, valid_by, unsettled_by};
ghost use Rattle.ramps.specs.Judging.{IsDownstream, IsPrintedByEach, IsUpstream};
ghost use Rattle.ramps.specs.Small.{AreSmall, IsSmall};
ghost use Rattle.ramps.specs.Walk.{AreOrdered};

use crate::small_witness::SmallWitness;
use crate::walk::{Ramps, down_ramps_beside, up_ramps};
use av_base::Steps;
use path_model::{Direction, Role, Table, Trail, Verdict, Witness};
use std::marker::Model;
use std::sync::ledger::Ledger;

/// The verdict of a path, and why it has it.
#[derive(Debug, Drop)]
pub struct Judged {
    witness: SmallWitness,
}

/// A contract sees the verdict and the witness.
impl Model for Judged {
    ghost use Rattle.ramps.specs.Judgement.{Judgement, judgement};
    ghost use Rattle.ramps.specs.Small.{wide};

    ghost Value = { Judgement };

    ghost view = { λ j. judgement (wide j.witness) };
}

impl Judged {
    /// The verdict.
    pub fn verdict(&self) -> Verdict
        ensures { result ≡ self.now.verdict }
    {
        self.witness.verdict()
    }

    /// The witness that is printed.
    pub fn witness(&self) -> Witness
        ensures { result ≡ self.now.witness }
    {
        self.witness.witness()
    }
}

/// Judges a path that came from a neighbour of this role, and counts it as one step. It takes no memory and refuses nothing.
#[inline(always)]
pub fn judge<T: Table, L: Ledger>(
    table: &T,
    role: Role,
    neighbour: u32,
    trail: &Trail,
    steps: &mut Steps<L>,
) -> Judged
    ensures printed { IsPrinted (T.rows table.now) role neighbour trail.now
        result.verdict result.witness }
    ensures one_step { steps.new ≡ steps.old + 1 }
{
    steps.tick();
    let witness = explain(table, role, neighbour, trail);
    Judged {
        witness: SmallWitness::of(witness),
    }
}

// The printed witness of a path that came from a neighbour of this role.
fn explain<T: Table>(table: &T, role: Role, neighbour: u32, trail: &Trail) -> Witness
    ensures printed { IsPrinted (T.rows table.now) role neighbour trail.now
        (shown_by result) result }
    ensures small { AreSmall result }
{
    if let Some(witness) = at_once(role, neighbour, trail) {
        return witness;
    }
    let chain = trail.chain().as_slice();
    let count = chain.len() as u32;
    match role.direction() {
        Direction::Up => upstream(count, up_ramps(table, chain)),
        Direction::Down => {
            let up = up_ramps(table, chain);
            downstream(count, up, down_ramps_beside(table, chain, up))
        }
    }
}

// The witness of a path that is invalid whatever is attested.
fn at_once(role: Role, neighbour: u32, trail: &Trail) -> Option<Witness>
    ensures none { IfNone result (IsInvalidAtOnce role neighbour trail.now → ⊥) }
    ensures some { IfSome result (IsPrintedByEach role neighbour trail.now) }
    ensures small { IfSome result AreSmall }
{
    let Some(last) = trail.chain().as_slice().last() else {
        return Some(Witness::Empty);
    };
    if trail.is_set() {
        return Some(Witness::Set);
    }
    if role.tests_neighbour() && *last != neighbour {
        return Some(Witness::Neighbour);
    }
    None
}

// The witness of an upstream path of so many ASes.
fn upstream(count: u32, up: Ramps) -> Witness
    requires short { count ≤ 65535 }
    requires up { AreOrdered count up }
    ensures witness { IsUpstream count up result }
    ensures small { AreSmall result }
{
    if up.maximal < count {
        Witness::Blocked {
            first: up.maximal,
            last: None,
        }
    } else if up.minimal < count {
        unsettled(up.minimal, None, count, up.maximal)
    } else {
        valid(count, up.minimal)
    }
}

// The witness of a downstream path of so many ASes.
fn downstream(count: u32, up: Ramps, down: Ramps) -> Witness
    requires short { count ≤ 65535 }
    requires up { AreOrdered count up }
    requires down { AreOrdered count down }
    ensures witness { IsDownstream count up down result }
    ensures small { AreSmall result }
{
    if up.maximal + down.maximal < count {
        Witness::Blocked {
            first: up.maximal,
            last: Some(count - down.maximal),
        }
    } else if up.minimal + down.minimal < count {
        unsettled(up.minimal, Some(count - down.minimal), count, up.maximal)
    } else {
        valid(count, up.minimal)
    }
}

// The witness of an unknown path of so many ASes: the first hop that doesn't climb, the last one that doesn't descend (none upstream),
// and the labelling that climbs as far as this ramp, the maximal up-ramp.
fn unsettled(first: u32, last: Option<u32>, count: u32, ramp: u32) -> Witness
    requires short { count ≤ 65535 }
    requires some { 1 ≤ ramp }
    requires within { ramp ≤ count }
    requires first { first ≤ count }
    requires last { IsSmall last }
    ensures witness { result ≡ unsettled_by first last (climb_of count ramp) }
    ensures small { AreSmall result }
{
    let (climbs, free, descents) = longest_climb(count, ramp);
    Witness::Unsettled {
        first,
        last,
        climbs,
        free,
        descents,
    }
}

// The witness of a valid path of so many ASes: the labelling that climbs as far as this ramp, the minimal up-ramp.
fn valid(count: u32, ramp: u32) -> Witness
    requires short { count ≤ 65535 }
    requires some { 1 ≤ ramp }
    requires within { ramp ≤ count }
    ensures witness { result ≡ valid_by (climb_of count ramp) }
    ensures small { AreSmall result }
{
    let (climbs, free, descents) = longest_climb(count, ramp);
    Witness::Valid {
        climbs,
        free,
        descents,
    }
}

// The climbs, free hops and descents of a path whose hops climb as far as this ramp.
fn longest_climb(count: u32, ramp: u32) -> (u32, u32, u32)
    requires some { 1 ≤ ramp }
    requires within { ramp ≤ count }
    ensures climbs { result.0 ≡ (climb_of count ramp).climbs }
    ensures free { result.1 ≡ (climb_of count ramp).free }
    ensures descents { result.2 ≡ (climb_of count ramp).descents }
    ensures within { result.0 + result.1 + result.2 ≤ count }
{
    let left = count - ramp;
    let free = left.min(1);
    (ramp - 1, free, left - free)
}
