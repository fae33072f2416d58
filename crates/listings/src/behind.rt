//! Paths as they are seen behind some ASes.
ghost use Rattle.std.specs.Prelude.{◌≡◌, ◌+◌, false, IfOk, OnOk, OnErr};
ghost use Rattle.attestations.specs.ComputedTable.{table_of};
ghost use Rattle.path_model.specs.RightVerdict.{IsRight};
ghost use Rattle.path_model.specs.Trail.{path_of};
ghost use Rattle.listings.specs.Sent.{first_of, sent_path};

use av_base::{NoMemory, Steps};
use path_model::{Role, Trail, Verdict};
use ramps::judge;
use std::alloc::Global;
use std::sync::ledger::Ledger;
use vap_table::Vaps;

// The most ASes of a path that is judged: no message has so many.
const MOST: usize = 65535;

/// The verdict of the path of these ASes alone, in this role of the first one. It is one judgement, and a step.
pub(crate) fn own_verdict<L: Ledger>(
    alloc: Global,
    table: &Vaps,
    role: Role,
    ases: &[u32],
    steps: &mut Steps<L>,
) -> Result<Verdict, NoMemory>
    ensures right { IfOk result
        (IsRight (table_of table.now) role (first_of ases.now) (path_of false ases.now)) }
    ensures ticked { OnOk result (steps.new ≡ steps.old + 1) }
    ensures none { OnErr result (steps.new ≡ steps.old) }
{
    let alone = Trail::new(alloc, false, &[])?;
    seen_verdict(alloc, table, role, ases, &alone, steps)
}

/// The verdict of the path of these ASes with a route's path behind them, in this role of the first one. It is one judgement, and a step.
pub(crate) fn seen_verdict<L: Ledger>(
    alloc: Global,
    table: &Vaps,
    role: Role,
    ases: &[u32],
    trail: &Trail,
    steps: &mut Steps<L>,
) -> Result<Verdict, NoMemory>
    ensures right { IfOk result
        (IsRight (table_of table.now) role (first_of ases.now) (sent_path ases.now trail.now)) }
    ensures ticked { OnOk result (steps.new ≡ steps.old + 1) }
    ensures none { OnErr result (steps.new ≡ steps.old) }
{
    let joined = joined(alloc, ases, trail)?;
    let judged = judge(table, role, first_of(ases), &joined, steps);
    Ok(judged.verdict())
}

// The first of these ASes; 0 where there is none.
fn first_of(ases: &[u32]) -> u32
    ensures { result ≡ first_of ases.now }
{
    match ases.first() {
        None => 0,
        Some(first) => *first,
    }
}

// The path of these ASes and behind them those of another path, shortened as a whole. For more than the most ASes there is no memory.
fn joined(alloc: Global, ases: &[u32], trail: &Trail) -> Result<Trail, NoMemory>
    ensures { IfOk result (λ joined. joined ≡ sent_path ases.now trail.now) }
{
    let mut behind = Vec::from_slice(alloc, trail.chain().as_slice())?;
    behind.reverse();
    let mut path = Vec::from_slice(alloc, ases)?;
    path.extend_from_slice(behind.as_slice())?;
    if path.len() > MOST {
        return Err(NoMemory);
    }
    Ok(Trail::from_newest_first(trail.is_set(), path))
}
