//! Rows of one customer, gathered so that its tally is gone through once for all of them.
ghost use Rattle.std.specs.Prelude.{◌≡◌, ◌+◌, [], IfOk, OnOk, List, ℕ};
ghost use Rattle.std.specs.List.Sorted.{IsNonDecreasing, IsStrictlyIncreasing};
ghost use Rattle.attestations.specs.Terms.{HaveSetsOfProviders};
ghost use Rattle.vap_table.specs.Counting.{IsOrdered};
ghost use Rattle.vap_table.specs.Turning.{row_if, rows_left, AreGathered, AreGatheredToo, IsTurned};

use crate::Tally;
use crate::stepping::Step;
use crate::tallied::step_rows;
use crate::turning::is_left;
use attestations::Term;
use av_base::NoMemory;
use path_model::AsList;
use std::alloc::Global;

/// How many rows there are, and all that they hold.
#[derive(Debug, Drop)]
pub(crate) struct Gathered {
    pub(crate) rows: u64,
    // by rising number, each as often as rows hold it
    pub(crate) numbers: Vec<u32>,
}

impl Gathered {
    /// The rows of those attestations that are counted at the one moment and not at the other one. It costs the time of the attestations,
    /// and that of sorting what these rows hold.
    pub(crate) fn of(
        alloc: Global,
        from: Option<u32>,
        to: Option<u32>,
        terms: &[Term],
    ) -> Result<Gathered, NoMemory>
        requires { HaveSetsOfProviders terms.now }
        ensures rising { IfOk result (λ g. IsNonDecreasing g.numbers.items) }
        ensures rows { IfOk result
            (λ g. AreGathered (rows_left from to terms.now) g.rows g.numbers.items) }
    {
        let mut gathered = Gathered {
            rows: 0,
            numbers: Vec::new(alloc),
        };
        for term in terms {
            gathered.add_if(is_left(from, to, term), &term.providers)?;
        }
        gathered.numbers.sort_unstable();
        Ok(gathered)
    }

    // One row more, if it is one of them.
    fn add_if(&mut self, is_one: bool, row: &AsList) -> Result<(), NoMemory>
        requires { IsStrictlyIncreasing row.now }
        ensures { OnOk result (AreGatheredToo (row_if is_one row.now)
            self.old.rows self.old.numbers.items self.new.rows self.new.numbers.items) }
    {
        if !is_one {
            return Ok(());
        }
        let rows = one_more(self.rows)?;
        self.numbers.extend_from_slice(row.as_slice())?;
        self.rows = rows;
        Ok(())
    }
}

// One more. For 2^64 of them there is no memory.
fn one_more(rows: u64) -> Result<u64, NoMemory>
    ensures { IfOk result (λ more. more ≡ rows + 1) }
{
    rows.checked_add(1).ok_or(NoMemory)
}

/// The tally of sources with these rows less.
pub(crate) fn without_rows(
    alloc: Global,
    tally: Option<Tally>,
    gathered: &Gathered,
) -> Result<Option<Tally>, NoMemory>
    requires ordered { IsOrdered tally }
    requires rising { IsNonDecreasing gathered.now.numbers.items }
    ensures ordered { IfOk result IsOrdered }
    ensures tally { IfOk result (λ next. (rows : List (List ℕ))
        → AreGathered rows gathered.now.rows gathered.now.numbers.items
        → IsTurned rows [] tally next) }
{
    if gathered.rows == 0 {
        return Ok(tally);
    }
    let numbers = gathered.numbers.as_slice();
    let next = step_rows(alloc, tally, Step::SourceLess, gathered.rows, numbers)?;
    Ok(next)
}

/// The tally of sources with these rows more.
pub(crate) fn with_rows(
    alloc: Global,
    tally: Option<Tally>,
    gathered: &Gathered,
) -> Result<Option<Tally>, NoMemory>
    requires ordered { IsOrdered tally }
    requires rising { IsNonDecreasing gathered.now.numbers.items }
    ensures ordered { IfOk result IsOrdered }
    ensures tally { IfOk result (λ next. (rows : List (List ℕ))
        → AreGathered rows gathered.now.rows gathered.now.numbers.items
        → IsTurned [] rows tally next) }
{
    if gathered.rows == 0 {
        return Ok(tally);
    }
    let numbers = gathered.numbers.as_slice();
    let next = step_rows(alloc, tally, Step::SourceMore, gathered.rows, numbers)?;
    Ok(next)
}
