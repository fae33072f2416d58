//! What a line does within memory: `role` and its kin, `clear`, `judge` and `say`.
ghost use Rattle.std.specs.Prelude.{◌≤◌, length, Ok};
ghost use Rattle.aspa_top.specs.declared.task.Task.TheVariants.{Clear, Happen, Judge, Say};
ghost use Rattle.aspa_top.specs.Passed.{KeepsAll, told};
ghost use Rattle.aspa_top.specs.Performing.{Did};
ghost use Rattle.aspa_top.specs.Standing.{IsBegun};

use crate::effects::{clear, happen};
use crate::judgement::{judge, put_line};
use crate::outside::Outside;
use crate::working::Working;
use analyser::Event;
use av_base::{Links, Shelf, Sink, Stop};
use path_model::{AsList, Role};
use report_text::put_said;
use script_lines::Saying;
use std::alloc::Global;
use std::sync::ledger::Ledger;

/// An event happens.
pub(crate) fn let_happen<F: Shelf, K: Links, W: Sink, L: Ledger>(
    working: Working,
    event: Event,
    outside: &mut Outside<F, K, W, L>,
) -> Result<Working, Stop>
    requires begun { IsBegun (told F.Shelf K.Links W.Sink outside.old) working }
    ensures keeps { KeepsAll F.Shelf K.Links W.Sink outside.old outside.new }
    ensures did { Did working (Ok (Happen event))
        (told F.Shelf K.Links W.Sink outside.old)
        (told F.Shelf K.Links W.Sink outside.new) result }
{
    let next = happen(working, event, outside.steps)?;
    Ok(next)
}

/// All routes go, with their marks.
pub(crate) fn clear_routes<F: Shelf, K: Links, W: Sink, L: Ledger>(
    alloc: Global,
    working: Working,
    outside: &mut Outside<F, K, W, L>,
) -> Result<Working, Stop>
    requires begun { IsBegun (told F.Shelf K.Links W.Sink outside.old) working }
    ensures keeps { KeepsAll F.Shelf K.Links W.Sink outside.old outside.new }
    ensures did { Did working (Ok Clear)
        (told F.Shelf K.Links W.Sink outside.old)
        (told F.Shelf K.Links W.Sink outside.new) result }
{
    let next = clear(alloc, working, outside.steps)?;
    Ok(next)
}

/// A written path is judged; its line is added whole or not at all.
pub(crate) fn judge_path<F: Shelf, K: Links, W: Sink, L: Ledger>(
    alloc: Global,
    working: Working,
    role: Role,
    neighbour: u32,
    path: &AsList,
    outside: &mut Outside<F, K, W, L>,
) -> Result<Working, Stop>
    requires within { length path.now ≤ 65535 }
    requires begun { IsBegun (told F.Shelf K.Links W.Sink outside.old) working }
    ensures keeps { KeepsAll F.Shelf K.Links W.Sink outside.old outside.new }
    ensures did { Did working (Ok (Judge role neighbour path.now))
        (told F.Shelf K.Links W.Sink outside.old)
        (told F.Shelf K.Links W.Sink outside.new) result }
{
    let table = working.progress.analyser.store().table();
    let line = judge(alloc, table, role, neighbour, path, outside.steps)?;
    put_line(outside.text, line.as_slice())?;
    Ok(working)
}

/// Words are said.
pub(crate) fn say<F: Shelf, K: Links, W: Sink, L: Ledger>(
    working: Working,
    saying: &Saying,
    outside: &mut Outside<F, K, W, L>,
) -> Result<Working, Stop>
    requires begun { IsBegun (told F.Shelf K.Links W.Sink outside.old) working }
    ensures keeps { KeepsAll F.Shelf K.Links W.Sink outside.old outside.new }
    ensures did { Did working (Ok (Say saying.now))
        (told F.Shelf K.Links W.Sink outside.old)
        (told F.Shelf K.Links W.Sink outside.new) result }
{
    put_said(outside.text, saying.text())?;
    Ok(working)
}
