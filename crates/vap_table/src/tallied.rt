//! A customer's tally, once rows more or less are counted.
ghost use Rattle.std.specs.Prelude.{◌≡◌, ℕ, List, [], IfOk};
ghost use Rattle.std.specs.Ordering.{nat_cmp};
ghost use Rattle.std.specs.List.Sorted.{IsStrictlySortedBy, IsNonDecreasing};
ghost use Rattle.std.specs.Option.{option_copied};
ghost use Rattle.vap_table.specs.Counting.{IsGrownBy, IsOrdered, IsTallyBySide};
ghost use Rattle.vap_table.specs.Sources.{IsSetIfGiven};
ghost use Rattle.vap_table.specs.Stepping.{given_in, rows_in, times, AreStepsTaken, IsTallyStepped, tally_made};

use crate::stepping::{Step, stepped_by};
use crate::{Given, GivenList, Tally};
use av_base::NoMemory;
use path_model::AsList;
use std::alloc::Global;

/// Of what a row is.
#[derive(Clone, Copy, Debug, PartialEq, Eq)]
pub(crate) enum Side {
    /// Of a named source.
    Sources,
    /// Of the assertions of a SLURM file, or of those by hand.
    Assertions,
}

/// The tally with one row more, if there is one.
pub(crate) fn with_row(
    alloc: Global,
    tally: Option<Tally>,
    side: Side,
    row: Option<&AsList>,
) -> Result<Option<Tally>, NoMemory>
    requires ordered { IsOrdered tally }
    requires set { IsSetIfGiven (option_copied row) }
    ensures ordered { IfOk result IsOrdered }
    ensures tally { IfOk result (λ next. (rows grown other : List (List ℕ))
        → IsGrownBy (option_copied row.entry) rows grown
        → IsTallyBySide side rows other tally → IsTallyBySide side grown other next) }
{
    let Some(row) = row else {
        return Ok(tally);
    };
    match side {
        Side::Sources => {
            let next = step_tally(alloc, tally, Step::SourceMore, true, row.as_slice())?;
            Ok(next)
        }
        Side::Assertions => {
            let next = step_tally(alloc, tally, Step::AssertionMore, true, row.as_slice())?;
            Ok(next)
        }
    }
}

/// The tally with one row less, if there is one.
pub(crate) fn without_row(
    alloc: Global,
    tally: Option<Tally>,
    side: Side,
    row: Option<&AsList>,
) -> Result<Option<Tally>, NoMemory>
    requires ordered { IsOrdered tally }
    requires set { IsSetIfGiven (option_copied row) }
    ensures ordered { IfOk result IsOrdered }
    ensures tally { IfOk result (λ next. (rows grown other : List (List ℕ))
        → IsGrownBy (option_copied row.entry) rows grown
        → IsTallyBySide side grown other tally → IsTallyBySide side rows other next) }
{
    let Some(row) = row else {
        return Ok(tally);
    };
    match side {
        Side::Sources => {
            let next = step_tally(alloc, tally, Step::SourceLess, true, row.as_slice())?;
            Ok(next)
        }
        Side::Assertions => {
            let next = step_tally(alloc, tally, Step::AssertionLess, true, row.as_slice())?;
            Ok(next)
        }
    }
}

/// The tally once the step is taken for the numbers of a row, and, if it is another row, for the number of rows.
pub(crate) fn step_tally(
    alloc: Global,
    tally: Option<Tally>,
    step: Step,
    is_other: bool,
    row: &[u32],
) -> Result<Option<Tally>, NoMemory>
    requires ordered { IsOrdered tally }
    requires rising { IsStrictlySortedBy nat_cmp row.now }
    ensures ordered { IfOk result IsOrdered }
    ensures stepped { IfOk result (λ next. IsTallyStepped step is_other row.now tally next) }
{
    let next = step_rows(alloc, tally, step, u64::from(is_other), row)?;
    Ok(next)
}

/// The tally once the step is taken for each number of a list that doesn't fall, as often as it is there, and for so many rows. It goes
/// through the tally and the list once.
pub(crate) fn step_rows(
    alloc: Global,
    tally: Option<Tally>,
    step: Step,
    rows: u64,
    list: &[u32],
) -> Result<Option<Tally>, NoMemory>
    requires ordered { IsOrdered tally }
    requires rising { IsNonDecreasing list.now }
    ensures ordered { IfOk result IsOrdered }
    ensures stepped { IfOk result (AreStepsTaken step rows (times list.now) tally) }
{
    let Tally {
        sources,
        assertions,
        given,
    } = or_empty(alloc, tally);
    let counted = Given {
        provider: 0,
        sources,
        assertions,
    };
    let items = stepped_by(alloc, given.as_slice(), list, step)?;
    let counted = step.taken(counted, rows)?;
    Ok(tally_of(counted, GivenList { items }))
}

// The tally, or one of no rows.
fn or_empty(alloc: Global, tally: Option<Tally>) -> Tally
    ensures rows { (result.sources, result.assertions) ≡ rows_in tally }
    ensures given { result.given ≡ given_in tally }
{
    match tally {
        Some(tally) => tally,
        None => Tally {
            sources: 0,
            assertions: 0,
            given: GivenList {
                items: Vec::new(alloc),
            },
        },
    }
}

// The tally of so many rows; none, where there are none.
fn tally_of(rows: Given, given: GivenList) -> Option<Tally>
    ensures { result ≡ tally_made (rows.sources, rows.assertions) given }
{
    if rows.sources == 0 && rows.assertions == 0 {
        return None;
    }
    Some(Tally {
        sources: rows.sources,
        assertions: rows.assertions,
        given,
    })
}
