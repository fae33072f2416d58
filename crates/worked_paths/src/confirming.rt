//! Claims of verdicts and witnesses that the checker confirms, and others that it doesn't.
use crate::ladder::Alone;
use crate::reading::{is_row, read_row};
use crate::world::World;
use av_base::NoMemory;
use path_model::Table;
use std::alloc::Global;
use std::process::Abort;
use witness_checker::confirm;

// Of ASes that have no provider: each row is a claim, and whether it is confirmed.
const ALONE: &str = "
# From a provider, the path 3 2 1 by ASes that have no provider: hop 1 refuses to climb, and hop 2 to descend.
# The printed witness.
confirmed provider 3 | 3 2 1 | invalid blocked 1 2
# The last hop has to be a later one.
refused provider 3 | 3 2 1 | invalid blocked 2 2
# Downstream there has to be one.
refused provider 3 | 3 2 1 | invalid blocked 1
# The witness speaks for another verdict.
refused provider 3 | 3 2 1 | unknown blocked 1 2
# Hops are counted from 1,
refused provider 3 | 3 2 1 | invalid blocked 0 2
# and a path of three ASes has two.
refused provider 3 | 3 2 1 | invalid blocked 1 3
refused provider 3 | 3 2 1 | invalid blocked 1 4294967295
# One hop may be free, and no more.
refused provider 3 | 3 2 1 | valid climbs 0 free 2 descents 0
# Hop 2 doesn't descend.
refused provider 3 | 3 2 1 | valid climbs 0 free 1 descents 1
# These three come to 2 where a sum wraps at 32 bits.
refused provider 3 | 3 2 1 | valid climbs 4294967295 free 1 descents 2
refused provider 3 | 3 2 1 | valid climbs 4294967295 free 4294967295 descents 4294967295
# The path isn't empty, has no AS_SET, and ends at the neighbour.
refused provider 3 | 3 2 1 | invalid empty
refused provider 3 | 3 2 1 | invalid set
refused provider 3 | 3 2 1 | invalid neighbour
# The same path from a customer.
# The printed witness.
confirmed customer 3 | 3 2 1 | invalid blocked 1
# Another hop that refuses to climb shows as much.
confirmed customer 3 | 3 2 1 | invalid blocked 2
# Upstream no last hop is named.
refused customer 3 | 3 2 1 | invalid blocked 1 2
# Upstream no hop is free.
refused customer 3 | 3 2 1 | valid climbs 0 free 1 descents 1
";

// The same in the small world.
const CLAIMS: &str = "
# From a provider, the path 8 9 8 of two that attest each other: both hops climb and descend.
# The printed witness.
confirmed provider 8 | 8 9 8 | valid climbs 2 free 0 descents 0
# Other labellings fit too.
confirmed provider 8 | 8 9 8 | valid climbs 0 free 0 descents 2
confirmed provider 8 | 8 9 8 | valid climbs 1 free 1 descents 0
# Each hop needs a label,
refused provider 8 | 8 9 8 | valid climbs 1 free 0 descents 0
# and no more than the path has.
refused provider 8 | 8 9 8 | valid climbs 1 free 1 descents 1
# From a provider, the path 12 11 10 of silent ASes.
# The printed witness.
confirmed provider 12 | 12 11 10 | unknown unsettled 1 2 climbs 2 free 0 descents 0
# Another labelling that would fit.
confirmed provider 12 | 12 11 10 | unknown unsettled 1 2 climbs 0 free 1 descents 1
# Two free hops wouldn't.
refused provider 12 | 12 11 10 | unknown unsettled 1 2 climbs 0 free 2 descents 0
# The hops are in the wrong order.
refused provider 12 | 12 11 10 | unknown unsettled 2 1 climbs 2 free 0 descents 0
# Silence is no refusal,
refused provider 12 | 12 11 10 | invalid blocked 1 2
# and no attestation.
refused provider 12 | 12 11 10 | valid climbs 2 free 0 descents 0
# The path 2 1, of which 1 attests 2, came from its last AS,
confirmed peer 2 | 2 1 | valid climbs 1 free 0 descents 0
# or from another one.
refused peer 9 | 2 1 | valid climbs 1 free 0 descents 0
confirmed peer 9 | 2 1 | invalid neighbour
# A route server isn't tested.
confirmed rs 9 | 2 1 | valid climbs 1 free 0 descents 0
refused rs 9 | 2 1 | invalid neighbour
# What makes a path invalid at once has its own witnesses, and no other is confirmed there.
confirmed peer 2 | set 2 1 | invalid set
refused peer 2 | set 2 1 | valid climbs 1 free 0 descents 0
confirmed peer 2 | | invalid empty
refused peer 2 | | invalid neighbour
";

// Puts the claim of a row to the checker.
fn test_claim<T: Table>(
    rt: &impl Abort,
    alloc: Global,
    table: &T,
    line: &str,
) -> Result<(), NoMemory> {
    let Some((outcome, claim)) = line.split_once(' ') else {
        return Err(NoMemory);
    };
    let row = read_row(alloc, claim)?;
    let is_confirmed = confirm(
        table,
        row.role,
        row.neighbour,
        &row.trail,
        row.verdict,
        row.witness,
    );
    let wanted = if is_confirmed { "confirmed" } else { "refused" };
    assert_eq!(rt; outcome, wanted, "{line}");
    Ok(())
}

// So many rows, and no others.
fn test_claims<T: Table>(
    rt: &impl Abort,
    alloc: Global,
    table: &T,
    rows: &str,
    count: u32,
) -> Result<(), NoMemory> {
    let mut left = count;
    for line in rows.lines() {
        if is_row(line) {
            test_claim(rt, alloc, table, line)?;
            left = left.wrapping_sub(1);
        }
    }
    assert_eq!(rt; left, 0);
    Ok(())
}

#[test]
fn claims(rt: HostRuntime) -> Result<(), NoMemory> {
    test_claims(&rt, rt.alloc(), &Alone { below: 4 }, ALONE, 18)?;
    test_claims(&rt, rt.alloc(), &World, CLAIMS, 20)
}
