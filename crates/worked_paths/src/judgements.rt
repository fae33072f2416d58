//! Paths in a small world, each with its right verdict and printed witness. Hop 1 is at the origin, so at the end of the path.
ghost use Rattle.std.specs.Prelude.{◌≡◌};

use crate::reading::{is_row, read_row};
use crate::world::World;
use av_base::{NoMemory, Steps};
use path_model::{AsList, Role, Trail, Verdict, Witness};
use ramps::judge;
use std::alloc::Global;
use std::marker::Brand;
use std::process::Abort;
use std::sync::ledger::{Blank, Ledger};
use witness_checker::confirm;

// A path that came from a customer, a peer, a route server or a route server's client may only have climbed. So a valid path has
// climbs alone, and the first hop that doesn't climb tells of the others.
const UPSTREAM: &str = "
# One AS has no hop.
customer 1 | 1 | valid climbs 0 free 0 descents 0
customer 10 | 10 | valid climbs 0 free 0 descents 0
# 1 attests 2.
customer 2 | 2 1 | valid climbs 1 free 0 descents 0
# 2 attests 3 too.
customer 3 | 3 2 1 | valid climbs 2 free 0 descents 0
# Three hops up from 20.
customer 3 | 3 2 1 20 | valid climbs 3 free 0 descents 0
# Prepends count once, and are no hops.
customer 2 | 2 2 1 1 1 | valid climbs 1 free 0 descents 0
# 3 has no provider, and so not 4.
customer 4 | 4 3 2 1 | invalid blocked 3
# 1 attests 2 alone, and not a silent 11.
customer 11 | 11 1 | invalid blocked 1
# 10 is silent and might attest 1.
customer 1 | 1 10 | unknown unsettled 1 climbs 1 free 0 descents 0
# A silent AS might attest a silent one.
customer 11 | 11 10 | unknown unsettled 1 climbs 1 free 0 descents 0
# The silent AS at the origin, and a climb that is attested behind it.
customer 3 | 3 2 10 | unknown unsettled 1 climbs 2 free 0 descents 0
# 9 attests 8, and 8 refuses 10: what 10 might attest doesn't matter.
customer 11 | 11 10 8 9 | invalid blocked 2
# The silent AS in the middle doesn't matter where 1 refuses it.
customer 3 | 3 10 1 | invalid blocked 1
# A silent AS in the middle, which a silent one might attest: the first of the two is named.
customer 3 | 3 11 10 | unknown unsettled 1 climbs 2 free 0 descents 0
# Not the silent AS at the end, but 3, which refuses it.
customer 10 | 10 3 2 1 | invalid blocked 3
# Up and down again: 2 doesn't attest 1.
customer 1 | 1 2 1 | invalid blocked 2
# Two hops refuse, and the first is named.
customer 4 | 4 3 4 5 | invalid blocked 2
# A loop of two that attest each other climbs all the way.
customer 8 | 8 9 8 | valid climbs 2 free 0 descents 0
# A loop in which 10 is silent: that 1 refuses 10 decides, and not the silence before it.
customer 10 | 10 1 10 | invalid blocked 2
# A peer sends what its customers sent.
peer 3 | 3 2 1 | valid climbs 2 free 0 descents 0
# A peer that sends what another peer sent leaks: 4 has no provider.
peer 3 | 3 4 5 | invalid blocked 2
# 7 sends its provider's route to a peer: 3 doesn't attest 7.
peer 7 | 7 3 | invalid blocked 1
# The neighbour that sent the path isn't its last AS.
peer 2 | 3 2 1 | invalid neighbour
customer 9 | 8 9 | invalid neighbour
# A route server isn't in the path.
rs 99 | 3 2 1 | valid climbs 2 free 0 descents 0
rs 99 | 1 10 | unknown unsettled 1 climbs 1 free 0 descents 0
rs 99 | 4 3 | invalid blocked 1
# A client of a route server is.
rs-client 3 | 3 2 1 | valid climbs 2 free 0 descents 0
rs-client 99 | 3 2 1 | invalid neighbour
";

// A path that came from a provider may have climbed, crossed one free hop and descended. The printed climb is the longest.
const DOWNSTREAM: &str = "
provider 1 | 1 | valid climbs 0 free 0 descents 0
# Any one hop is free, between silent ASes too.
provider 11 | 11 10 | valid climbs 0 free 1 descents 0
provider 4 | 4 3 | valid climbs 0 free 1 descents 0
# Climbs alone.
provider 3 | 3 2 1 | valid climbs 2 free 0 descents 0
# Descents alone: 1 attests 2, and 2 attests 3. As no hop climbs, the first counts as free.
provider 1 | 1 2 3 | valid climbs 0 free 1 descents 1
# A peak: up from 1 to 2 and down again. The hop down counts as free, since it is the one behind the longest climb.
provider 1 | 1 2 1 | valid climbs 1 free 1 descents 0
# 8 and 9 attest each other: each hop climbs and descends, and it is shown as a climb.
provider 8 | 8 9 8 9 | valid climbs 3 free 0 descents 0
# A plateau of two: 3 and 4 are peers.
provider 4 | 4 3 2 1 | valid climbs 2 free 1 descents 0
# The first hops refuse to descend and the last one refuses to climb, but in this order that is no leak.
provider 5 | 5 4 3 2 1 | valid climbs 2 free 1 descents 1
provider 6 | 6 5 4 3 2 1 | valid climbs 2 free 1 descents 2
# Six hops, two on each side of the plateau and one more.
provider 6 | 6 5 4 3 2 1 20 | valid climbs 3 free 1 descents 2
# A silent origin under it: hop 1 would have to climb, since the plateau takes hop 4, which doesn't descend.
provider 6 | 6 5 4 3 2 1 10 | unknown unsettled 1 4 climbs 3 free 1 descents 2
# A silent AS below the plateau on the other side: it would have to attest 4.
provider 10 | 10 4 3 2 1 | unknown unsettled 3 4 climbs 2 free 1 descents 1
# The free hop joins the silent origin to 4, and 5 attests 4.
provider 5 | 5 4 10 | valid climbs 0 free 1 descents 1
# 3 and 4 take the free hop, so the silent origin has to climb.
provider 4 | 4 3 10 | unknown unsettled 1 2 climbs 1 free 1 descents 0
# Silent ASes at both ends of a climb: the one hop that is free can't be both.
provider 11 | 11 2 1 10 | unknown unsettled 1 3 climbs 2 free 1 descents 0
# A plateau of three is too long: no hop of it is attested, and one alone is free.
provider 3 | 3 4 3 | invalid blocked 1 2
# One of four: the outermost hops are named.
provider 4 | 4 3 4 3 | invalid blocked 1 3
# A valley: 7 sends its provider 3's route to its provider 4, who would have to attest 7.
provider 4 | 4 7 3 | invalid blocked 1 2
# The same with a climb before it and a descent behind it.
provider 5 | 5 4 7 3 2 | invalid blocked 2 3
# A valley at a silent AS: neither 3 nor 4 attests it.
provider 3 | 3 10 4 | invalid blocked 1 2
# The free hop leads to the silent 10, which 5 doesn't attest.
provider 5 | 5 10 1 | invalid blocked 1 2
# The free hop leads to the silent 10, which the silent 11 might attest.
provider 11 | 11 10 1 | unknown unsettled 1 2 climbs 0 free 1 descents 1
# Of three silent ASes one hop is free, and the other might be attested.
provider 12 | 12 11 10 | unknown unsettled 1 2 climbs 2 free 0 descents 0
# The first hop is free, and the second descends.
provider 5 | 5 4 3 | valid climbs 0 free 1 descents 1
# The neighbour that sent the path isn't its last AS.
provider 9 | 3 2 1 | invalid neighbour
# Both provider and customer: as from a provider.
mutual 4 | 4 3 2 1 | valid climbs 2 free 1 descents 0
mutual 8 | 8 9 | valid climbs 1 free 0 descents 0
mutual 1 | 1 2 7 | valid climbs 0 free 1 descents 1
mutual 3 | 3 4 3 | invalid blocked 1 2
mutual 12 | 12 11 10 | unknown unsettled 1 2 climbs 2 free 0 descents 0
mutual 2 | 1 2 3 | invalid neighbour
";

const UNSAVED: &str = "
# An empty path and one with an AS_SET are invalid whoever sent them. The first of the causes is named.
provider 3 | | invalid empty
customer 3 | | invalid empty
peer 3 | | invalid empty
rs 3 | | invalid empty
rs-client 3 | | invalid empty
mutual 3 | | invalid empty
provider 3 | set | invalid empty
customer 3 | set | invalid empty
peer 3 | set | invalid empty
rs 3 | set | invalid empty
rs-client 3 | set | invalid empty
mutual 3 | set | invalid empty
provider 3 | set 3 2 1 | invalid set
customer 3 | set 3 2 1 | invalid set
peer 3 | set 3 2 1 | invalid set
rs 3 | set 3 2 1 | invalid set
rs-client 3 | set 3 2 1 | invalid set
mutual 3 | set 3 2 1 | invalid set
provider 3 | set 9 2 1 | invalid set
customer 3 | set 9 2 1 | invalid set
peer 3 | set 9 2 1 | invalid set
rs 3 | set 9 2 1 | invalid set
rs-client 3 | set 9 2 1 | invalid set
mutual 3 | set 9 2 1 | invalid set
";

// The judgement of a path in the small world, with a counter of steps of its own.
fn judged<L: Ledger>(blank: Blank, role: Role, neighbour: u32, trail: &Trail) -> (Verdict, Witness)
    requires name { blank.name ≡ L.name }
    requires parts { blank.parts ≡ L.parts }
    requires one { L.parts ≡ 1 }
{
    let mut steps = Steps::<L>::new(blank);
    let judged = judge(&World, role, neighbour, trail, &mut steps);
    (judged.verdict(), judged.witness())
}

// Judges the path of a row, and confirms the judgement.
fn judge_row(rt: &impl Abort, alloc: Global, line: &str) -> Result<(), NoMemory> {
    let row = read_row(alloc, line)?;
    let (verdict, witness) = judged::<Brand>(Blank::new(1), row.role, row.neighbour, &row.trail);
    assert!(rt; verdict == row.verdict && witness == row.witness, "{line}");
    let is_confirmed = confirm(
        &World,
        row.role,
        row.neighbour,
        &row.trail,
        verdict,
        witness,
    );
    assert!(rt; is_confirmed, "{line}");
    Ok(())
}

// So many rows, and no others.
fn judge_rows(rt: &impl Abort, alloc: Global, table: &str, count: u32) -> Result<(), NoMemory> {
    let mut left = count;
    for line in table.lines() {
        if is_row(line) {
            judge_row(rt, alloc, line)?;
            left = left.wrapping_sub(1);
        }
    }
    assert_eq!(rt; left, 0);
    Ok(())
}

#[test]
fn paths_upstream(rt: HostRuntime) -> Result<(), NoMemory> {
    judge_rows(&rt, rt.alloc(), UPSTREAM, 29)
}

#[test]
fn paths_downstream(rt: HostRuntime) -> Result<(), NoMemory> {
    judge_rows(&rt, rt.alloc(), DOWNSTREAM, 32)
}

#[test]
fn paths_that_no_role_saves(rt: HostRuntime) -> Result<(), NoMemory> {
    judge_rows(&rt, rt.alloc(), UNSAVED, 24)
}

// Whether the list is 64500 and 0, however it is read.
fn is_pushed(list: &AsList) -> bool {
    list.as_slice() == [64500, 0].as_slice()
        && list.len() == 2
        && list.get(1) == Some(0)
        && list.get(2).is_none()
}

// A list is what was put into it, and so is its copy.
#[test]
fn lists(rt: HostRuntime) -> Result<(), NoMemory> {
    let mut ases = AsList::new(rt.alloc());
    let was_empty = ases.is_empty();
    ases.push(64500)?;
    ases.push(0)?;
    let copy = ases.copy()?;
    assert!(rt; was_empty && is_pushed(&ases) && is_pushed(&copy));
    Ok(())
}

// Whether the path has an AS_SET, and its chain is 1, 2 and 3.
fn is_written(trail: &Trail) -> bool {
    trail.is_set() && trail.chain().as_slice() == [1, 2, 3].as_slice()
}

// A path has each AS once in a row, the origin first, and so has its copy.
#[test]
fn paths(rt: HostRuntime) -> Result<(), NoMemory> {
    let trail = Trail::new(rt.alloc(), true, &[3, 3, 2, 1, 1])?;
    let copy = trail.copy()?;
    assert!(rt; is_written(&trail) && is_written(&copy));
    Ok(())
}
