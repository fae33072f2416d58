//! `judge`: the verdict of a written path.
ghost use Rattle.std.specs.Prelude.{◌≡◌, ◌+◌, ◌≤◌, ◌++◌, length, IfOk, OnErr, OnOk};
ghost use Rattle.aspa_top.specs.Tasks.{IsJudged};

use av_base::{NoMemory, Steps};
use av_text::put_verdict;
use path_model::{AsList, Role, Trail};
use std::alloc::Global;
use std::sync::ledger::Ledger;
use vap_table::Vaps;

/// The line with the verdict of a path that is written neighbour first. It is one judgement, and a step.
pub(crate) fn judge<L: Ledger>(
    alloc: Global,
    table: &Vaps,
    role: Role,
    neighbour: u32,
    path: &AsList,
    steps: &mut Steps<L>,
) -> Result<Vec<u8>, NoMemory>
    requires { length path.now ≤ 65535 }
    ensures judged { IfOk result (λ line. IsJudged table.now role neighbour path.now line.items) }
    ensures ticked { OnOk result (steps.new ≡ steps.old + 1) }
    ensures ticks { steps.new ≤ steps.old + 1 }
{
    let trail = Trail::new(alloc, false, path.as_slice())?;
    let judged = ramps::judge(table, role, neighbour, &trail, steps);
    let mut line = Vec::new(alloc);
    put_verdict(&mut line, judged.verdict())?;
    line.push(b'\n')?;
    Ok(line)
}

/// Appends a line, whole or not at all.
pub(crate) fn put_line(text: &mut Vec<u8>, line: &[u8]) -> Result<(), NoMemory>
    ensures ok { OnOk result (text.new.items ≡ text.old.items ++ line.now) }
    ensures err { OnErr result (text.new.items ≡ text.old.items) }
{
    text.extend_from_slice(line)?;
    Ok(())
}
