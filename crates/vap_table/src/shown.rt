//! The current row of a customer, read off its tally.
ghost use Rattle.std.specs.Prelude.{◌≡◌, ◌++◌, IfOk, OnOk};
ghost use Rattle.std.specs.Option.{option_copied};
ghost use Rattle.attestations.specs.ComputedTable.{table_of};
ghost use Rattle.vap_table.specs.Shown.{goes_in, has_row, row_shown, shown};
ghost use Rattle.vap_table.specs.Tally.{IsTallyOf};

use crate::parts::HeldParts;
use crate::{Given, Tally};
use av_base::NoMemory;
use path_model::AsList;
use std::alloc::Global;

impl HeldParts {
    /// The row of a customer in the current table, from its tally. It takes the time of that.
    pub(crate) fn row(
        &self,
        customer: u32,
        tally: Option<&Tally>,
    ) -> Result<Option<AsList>, NoMemory>
        requires { IsTallyOf self.now customer (option_copied tally) }
        ensures { IfOk result (λ row. row ≡ table_of self.now customer) }
    {
        let row = row_of(self.alloc, self.is_filtered(customer), tally)?;
        Ok(row)
    }
}

// The row that is read off a tally.
fn row_of(
    alloc: Global,
    is_filtered: bool,
    tally: Option<&Tally>,
) -> Result<Option<AsList>, NoMemory>
    ensures { IfOk result (λ row. row ≡ row_shown is_filtered (option_copied tally.entry)) }
{
    let Some(tally) = tally else {
        return Ok(None);
    };
    if !has_row(is_filtered, tally) {
        return Ok(None);
    }
    let mut row = Vec::with_capacity(alloc, tally.given.len())?;
    push_shown(&mut row, is_filtered, tally.given.as_slice())?;
    Ok(Some(AsList::from_vec(row)))
}

// Whether a row goes in: no filter touches assertions.
fn has_row(is_filtered: bool, tally: &Tally) -> bool
    ensures { result ≡ has_row is_filtered tally.now }
{
    tally.assertions != 0 || (!is_filtered && tally.sources != 0)
}

// Appends the providers that go in.
fn push_shown(row: &mut Vec<u32>, is_filtered: bool, given: &[Given]) -> Result<(), NoMemory>
    ensures { OnOk result (row.new.items ≡ row.old.items ++ shown is_filtered given.now) }
{
    for one in given {
        if goes_in(is_filtered, one) {
            row.push(one.provider)?;
        }
    }
    Ok(())
}

// Whether the number goes in: 0 names no provider.
fn goes_in(is_filtered: bool, one: &Given) -> bool
    ensures { result ≡ goes_in is_filtered one.now }
{
    one.provider != 0 && (one.assertions != 0 || (!is_filtered && one.sources != 0))
}
