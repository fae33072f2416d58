//! What a line has judged, and shows beside verdicts: `explain` of a written path, and `sent`.
ghost use Rattle.std.specs.Prelude.{◌≡◌, ◌+◌, ◌≤◌, length, Ok, OnOk};
ghost use Rattle.aspa_top.specs.declared.task.Task.TheVariants.{Explain, Sent};
ghost use Rattle.aspa_top.specs.Passed.{KeepsAll, told};
ghost use Rattle.aspa_top.specs.Performing.{Did};
ghost use Rattle.aspa_top.specs.Standing.{IsBegun};

use crate::outside::Outside;
use crate::working::Working;
use av_base::{Links, Shelf, Sink, Stop};
use listings::{put_explained, put_sent};
use path_model::{AsList, Role, Trail};
use std::alloc::Global;
use std::sync::ledger::Ledger;

/// A written path is judged, which is a step, and explained: its verdict, what shows it, and what is attested of each hop.
#[inline(never)]
pub(crate) fn explain_path<F: Shelf, K: Links, W: Sink, L: Ledger>(
    alloc: Global,
    working: Working,
    role: Role,
    neighbour: u32,
    path: &AsList,
    outside: &mut Outside<F, K, W, L>,
) -> Result<Working, Stop>
    requires within { length path.now ≤ 65535 }
    requires begun { IsBegun (told F.Shelf K.Links W.Sink outside.old) working }
    ensures keeps { KeepsAll F.Shelf K.Links W.Sink outside.old outside.new }
    ensures did { Did working (Ok (Explain role neighbour path.now))
        (told F.Shelf K.Links W.Sink outside.old)
        (told F.Shelf K.Links W.Sink outside.new) result }
{
    let table = working.progress.analyser.store().table();
    let trail = Trail::new(alloc, false, path.as_slice())?;
    let judged = ramps::judge(table, role, neighbour, &trail, outside.steps);
    put_explained(
        table,
        &trail,
        judged.verdict(),
        judged.witness(),
        outside.out,
        outside.text,
    )?;
    Ok(working)
}

/// Lists what is sent upwards, as an AS has it that gets it over these.
#[inline(never)]
pub(crate) fn list_sent<F: Shelf, K: Links, W: Sink, L: Ledger>(
    alloc: Global,
    working: Working,
    role: Role,
    path: &AsList,
    outside: &mut Outside<F, K, W, L>,
) -> Result<Working, Stop>
    requires begun { IsBegun (told F.Shelf K.Links W.Sink outside.old) working }
    ensures keeps { KeepsAll F.Shelf K.Links W.Sink outside.old outside.new }
    ensures did { Did working (Ok (Sent role path.now))
        (told F.Shelf K.Links W.Sink outside.old)
        (told F.Shelf K.Links W.Sink outside.new) result }
{
    let store = working.progress.analyser.store();
    put_sent(
        alloc,
        store,
        role,
        path,
        outside.steps,
        outside.out,
        outside.text,
    )?;
    Ok(working)
}
