//! A customer's tally, once other attestations are counted, or those at another moment.
ghost use Rattle.std.specs.Prelude.{◌≡◌, [], ◌∷◌, ◌&&◌, not, is_some, IfOk};
ghost use Rattle.std.specs.List.Sorted.{IsStrictlyIncreasing};
ghost use Rattle.attestations.specs.Attested.{attested_list, listed};
ghost use Rattle.attestations.specs.ComputedTable.{attested};
ghost use Rattle.attestations.specs.Terms.{HaveSetsOfProviders};
ghost use Rattle.vap_table.specs.Counting.{IsOrdered};
ghost use Rattle.vap_table.specs.Turning.{row_if, rows_at, is_counted, IsTurned};

use crate::Tally;
use crate::gathering::{Gathered, with_rows, without_rows};
use crate::sources::Sources;
use crate::tallied::{Side, with_row, without_row};
use attestations::{Attested, Term};
use av_base::NoMemory;
use path_model::AsList;
use std::alloc::Global;

impl Sources {
    /// The tally of a customer at the one moment, once it is the other one. It costs a look-up in each source and the time of all
    /// attestations that they have of the customer, whenever these end; and that of the tally for each source in which one of them is alive
    /// at one of the two moments alone.
    pub(crate) fn turned(
        &self,
        alloc: Global,
        tally: Option<Tally>,
        from: u32,
        to: u32,
        customer: u32,
    ) -> Result<Option<Tally>, NoMemory>
        requires { IsOrdered tally }
        ensures ordered { IfOk result IsOrdered }
        ensures tally { IfOk result
            (IsTurned (attested from self.now customer) (attested to self.now customer) tally) }
    {
        let mut tally = tally;
        for (_, terms) in self.as_slice() {
            tally = turned(
                alloc,
                tally,
                Some(from),
                Some(to),
                terms.of_customer(customer),
            )?;
        }
        Ok(tally)
    }
}

/// The tally that counts what is alive of these attestations at the one moment, once it counts what is alive of them at the other one.
/// Where there is no moment, nothing of them is counted.
pub(crate) fn turned(
    alloc: Global,
    tally: Option<Tally>,
    from: Option<u32>,
    to: Option<u32>,
    attested: Option<Attested<'_>>,
) -> Result<Option<Tally>, NoMemory>
    requires ordered { IsOrdered tally }
    requires sets { HaveSetsOfProviders (attested_list attested) }
    ensures ordered { IfOk result IsOrdered }
    ensures tally { IfOk result (IsTurned (rows_at from (attested_list attested.entry))
        (rows_at to (attested_list attested.entry)) tally) }
{
    match attested {
        None => Ok(tally),
        Some(attested) => {
            let next = turned_listed(alloc, tally, from, to, attested)?;
            Ok(next)
        }
    }
}

// The same, where there are any.
fn turned_listed(
    alloc: Global,
    tally: Option<Tally>,
    from: Option<u32>,
    to: Option<u32>,
    attested: Attested<'_>,
) -> Result<Option<Tally>, NoMemory>
    requires ordered { IsOrdered tally }
    requires sets { HaveSetsOfProviders (listed attested) }
    ensures ordered { IfOk result IsOrdered }
    ensures tally { IfOk result (IsTurned (rows_at from (listed attested.entry))
        (rows_at to (listed attested.entry)) tally) }
{
    match attested {
        Attested::Row(row) => {
            let next = turned_row(alloc, tally, from.is_some(), to.is_some(), row)?;
            Ok(next)
        }
        Attested::Terms(terms) => {
            let next = turned_terms(alloc, tally, from, to, terms)?;
            Ok(next)
        }
    }
}

// The same of these.
fn turned_terms(
    alloc: Global,
    tally: Option<Tally>,
    from: Option<u32>,
    to: Option<u32>,
    terms: &[Term],
) -> Result<Option<Tally>, NoMemory>
    requires ordered { IsOrdered tally }
    requires sets { HaveSetsOfProviders terms.now }
    ensures ordered { IfOk result IsOrdered }
    ensures tally { IfOk result (IsTurned (rows_at from terms.now) (rows_at to terms.now) tally) }
{
    match terms {
        [term] => {
            let next = turned_term(alloc, tally, from, to, term)?;
            Ok(next)
        }
        _ => {
            let next = turned_several(alloc, tally, from, to, terms)?;
            Ok(next)
        }
    }
}

// The same of one.
fn turned_term(
    alloc: Global,
    tally: Option<Tally>,
    from: Option<u32>,
    to: Option<u32>,
    term: &Term,
) -> Result<Option<Tally>, NoMemory>
    requires ordered { IsOrdered tally }
    requires set { IsStrictlyIncreasing term.now.providers }
    ensures ordered { IfOk result IsOrdered }
    ensures tally { IfOk result
        (IsTurned (rows_at from (term.now ∷ [])) (rows_at to (term.now ∷ [])) tally) }
{
    let was = is_counted(from, term);
    let is = is_counted(to, term);
    let next = turned_row(alloc, tally, was, is, &term.providers)?;
    Ok(next)
}

// The same of several, whose rows are gathered first: so the tally is gone through once for those that go, and once for those that come.
fn turned_several(
    alloc: Global,
    tally: Option<Tally>,
    from: Option<u32>,
    to: Option<u32>,
    terms: &[Term],
) -> Result<Option<Tally>, NoMemory>
    requires ordered { IsOrdered tally }
    requires sets { HaveSetsOfProviders terms.now }
    ensures ordered { IfOk result IsOrdered }
    ensures tally { IfOk result (IsTurned (rows_at from terms.now) (rows_at to terms.now) tally) }
{
    let gone = Gathered::of(alloc, from, to, terms)?;
    let come = Gathered::of(alloc, to, from, terms)?;
    let without = without_rows(alloc, tally, &gone)?;
    let next = with_rows(alloc, without, &come)?;
    Ok(next)
}

/// Whether an attestation is counted at the one moment and not at the other one.
pub(crate) fn is_left(from: Option<u32>, to: Option<u32>, term: &Term) -> bool
    ensures { result ≡ (is_counted from term.now.until && not (is_counted to term.now.until)) }
{
    is_counted(from, term) && !is_counted(to, term)
}

// Whether an attestation is counted: it is, where there is a moment at which it is alive.
fn is_counted(moment: Option<u32>, term: &Term) -> bool
    ensures { result ≡ is_counted moment term.now.until }
{
    match moment {
        None => false,
        Some(moment) => term.is_alive(moment),
    }
}

// The tally that counts a row or doesn't, once it does or doesn't.
fn turned_row(
    alloc: Global,
    tally: Option<Tally>,
    was: bool,
    is: bool,
    row: &AsList,
) -> Result<Option<Tally>, NoMemory>
    requires ordered { IsOrdered tally }
    requires set { IsStrictlyIncreasing row.now }
    ensures ordered { IfOk result IsOrdered }
    ensures tally { IfOk result (IsTurned (row_if was row.now) (row_if is row.now) tally) }
{
    match (was, is) {
        (true, false) => {
            let next = without_row(alloc, tally, Side::Sources, Some(row))?;
            Ok(next)
        }
        (false, true) => {
            let next = with_row(alloc, tally, Side::Sources, Some(row))?;
            Ok(next)
        }
        (true, true) => Ok(tally),
        (false, false) => Ok(tally),
    }
}
