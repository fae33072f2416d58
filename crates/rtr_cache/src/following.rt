//! From one version of the rows to the next.
ghost use Rattle.std.specs.Prelude.{◌≡◌, ℕ, IfOk, OnOk};
ghost use Rattle.std.specs.FinMap as map;
ghost use Rattle.attestations.specs.ComputedTable.{table_of};
ghost use Rattle.rtr_cache.specs.Kept.{LeadsBack, Visits, held_noted, new_noted, table_row};

use crate::rows::{give, note_if_differs, note_if_none};
use av_base::NoMemory;
use path_model::{Patch, Rows};
use std::alloc::Global;
use vap_table::Vaps;

/// The current rows of a table.
pub(crate) fn rows_of(alloc: Global, table: &Vaps) -> Result<Rows, NoMemory>
    ensures { IfOk result (λ rows. (q : ℕ) → map.get rows q ≡ table_of table.now q) }
{
    let mut rows = Rows::new(alloc);
    for (customer, row) in table.entries() {
        give(&mut rows, customer, Some(row))?;
    }
    Ok(rows)
}

/// What leads from the current table back to these rows.
pub(crate) fn back_from(alloc: Global, rows: &Rows, table: &Vaps) -> Result<Patch, NoMemory>
    ensures { IfOk result (λ back. LeadsBack rows.now (table_of table.now) back) }
{
    let mut back = Patch::new(alloc);
    note_held(&mut back, rows, table)?;
    note_new(&mut back, rows, table)?;
    Ok(back)
}

// Notes the rows that are others now, or gone.
fn note_held(back: &mut Patch, rows: &Rows, table: &Vaps) -> Result<(), NoMemory>
    ensures { OnOk result (Visits (λ q. map.get rows.now q) (held_noted (table_of table.now))
        (λ q. map.get back.old q) (λ q. map.get back.new q)) }
{
    for (customer, row) in rows.entries() {
        note_if_differs(back, customer, row, table.row(customer))?;
    }
    Ok(())
}

// Notes the customers that had no row.
fn note_new(back: &mut Patch, rows: &Rows, table: &Vaps) -> Result<(), NoMemory>
    ensures { OnOk result (Visits (table_of table.now) (new_noted rows.now)
        (λ q. map.get back.old q) (λ q. map.get back.new q)) }
{
    for (customer, _) in table.entries() {
        note_if_none(back, customer, rows.row(customer))?;
    }
    Ok(())
}

/// The customers that the patch names get the rows that the table has of them.
pub(crate) fn follow(rows: &mut Rows, back: &Patch, table: &Vaps) -> Result<(), NoMemory>
    ensures { OnOk result (Visits (λ q. map.get back.now q) (table_row (table_of table.now))
        (λ q. map.get rows.old q) (λ q. map.get rows.new q)) }
{
    for (customer, _) in back.entries() {
        give(rows, customer, table.row(customer))?;
    }
    Ok(())
}
