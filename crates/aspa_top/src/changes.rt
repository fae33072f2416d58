//! `changes`: what stands otherwise than it was marked.
ghost use Rattle.std.specs.Prelude.{Ok};
ghost use Rattle.aspa_top.specs.declared.task.Task.TheVariants.{Changes};
ghost use Rattle.aspa_top.specs.Passed.{KeepsAll, told};
ghost use Rattle.aspa_top.specs.Performing.{Did};
ghost use Rattle.aspa_top.specs.Standing.{IsBegun};

use crate::effects::{gather, mark};
use crate::outside::Outside;
use crate::working::Working;
use av_base::{Links, Shelf, Sink, Stop};
use listings::put_changes;
use std::sync::ledger::Ledger;

/// Adds a line for each key that stands otherwise than it was marked, and marks all.
#[inline(never)]
pub(crate) fn list_changes<F: Shelf, K: Links, W: Sink, L: Ledger>(
    working: Working,
    outside: &mut Outside<F, K, W, L>,
) -> Result<Working, Stop>
    requires begun { IsBegun (told F.Shelf K.Links W.Sink outside.old) working }
    ensures keeps { KeepsAll F.Shelf K.Links W.Sink outside.old outside.new }
    ensures did { Did working (Ok Changes)
        (told F.Shelf K.Links W.Sink outside.old)
        (told F.Shelf K.Links W.Sink outside.new) result }
{
    let working = gather(working)?;
    put_changes(working.progress.analyser.store(), outside.out, outside.text)?;
    Ok(mark(working))
}
