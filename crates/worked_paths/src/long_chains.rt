//! The longest path there is.
ghost use Rattle.std.specs.Prelude.{◌≡◌};

use crate::ladder::Ladder;
use crate::reading::read_shown;
use av_base::{NoMemory, Steps};
use path_model::{Role, Trail, Verdict, Witness};
use ramps::judge;
use std::alloc::Global;
use std::marker::Brand;
use std::process::Abort;
use std::sync::ledger::{Blank, Ledger};
use witness_checker::confirm;

// The path whose chain is the ASes from 1 to 65,535.
fn long_trail(alloc: Global) -> Result<Trail, NoMemory> {
    let mut newest_first = Vec::new(alloc);
    for asn in (1..65_536u32).rev() {
        newest_first.push(asn)?;
    }
    let ases = newest_first.as_slice();
    if ases.len() > 65_535 {
        return Err(NoMemory);
    }
    Trail::new(alloc, false, ases)
}

// The judgement of a path that came from 65,535, with a counter of steps of its own.
fn judged<L: Ledger>(blank: Blank, table: &Ladder, role: Role, trail: &Trail) -> (Verdict, Witness)
    requires name { blank.name ≡ L.name }
    requires parts { blank.parts ≡ L.parts }
    requires one { L.parts ≡ 1 }
{
    let mut steps = Steps::<L>::new(blank);
    let judged = judge(table, role, 65_535, trail, &mut steps);
    (judged.verdict(), judged.witness())
}

// Judges the longest path there is and confirms the judgement, where only the ASes below a number attest their successors.
fn judge_longest(
    rt: &impl Abort,
    alloc: Global,
    below: u32,
    role: Role,
    text: &str,
) -> Result<(), NoMemory> {
    let table = Ladder { below };
    let trail = long_trail(alloc)?;
    let (verdict, witness) = judged::<Brand>(Blank::new(1), &table, role, &trail);
    let (right, printed) = read_shown(alloc, text)?;
    assert!(rt; verdict == right && witness == printed);
    assert!(rt; confirm(&table, role, 65_535, &trail, verdict, witness));
    Ok(())
}

#[test]
fn the_last_hop_up_is_silent(rt: HostRuntime) -> Result<(), NoMemory> {
    let text = "unknown unsettled 65534 climbs 65534 free 0 descents 0";
    judge_longest(&rt, rt.alloc(), 65_534, Role::Customer, text)
}

#[test]
fn the_upper_half_is_silent(rt: HostRuntime) -> Result<(), NoMemory> {
    let text = "unknown unsettled 32769 65534 climbs 65534 free 0 descents 0";
    judge_longest(&rt, rt.alloc(), 32_769, Role::Provider, text)
}
