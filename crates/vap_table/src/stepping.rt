//! The counted numbers of a customer, once rows more or less are counted.
ghost use Rattle.std.specs.Prelude.{◌≡◌, ◌++◌, ◌+◌, ◌<◌, ◌≤◌, All, length, IfOk, OnOk, if◌then◌else◌};
ghost use Rattle.std.specs.Ordering.{nat_cmp};
ghost use Rattle.std.specs.List.Sorted.{IsStrictlySortedBy, IsNonDecreasing, IsPartitionPoint};
ghost use Rattle.vap_table.specs.Stepping.{ArePartedAt, AreStepped, IsBehind, listed, numbers_of, stepped, times, uncounted};

use crate::Given;
use av_base::NoMemory;
use std::alloc::Global;

/// What is done to the counts of a number that a row holds.
#[derive(Clone, Copy, Debug, PartialEq, Eq)]
pub(crate) enum Step {
    /// One attestation more of a source holds it.
    SourceMore,
    /// One attestation less of a source holds it.
    SourceLess,
    /// One assertion more holds it.
    AssertionMore,
    /// One assertion less holds it.
    AssertionLess,
}

impl Step {
    /// The counts after so many steps. For 2^64 of a kind there is no memory.
    pub(crate) fn taken(self, one: Given, often: u64) -> Result<Given, NoMemory>
        ensures { IfOk result (λ after. after ≡ stepped self often one) }
    {
        match self {
            Step::SourceMore => more_sources(one, often),
            Step::SourceLess => Ok(Given {
                sources: one.sources.saturating_sub(often),
                ..one
            }),
            Step::AssertionMore => more_assertions(one, often),
            Step::AssertionLess => Ok(Given {
                assertions: one.assertions.saturating_sub(often),
                ..one
            }),
        }
    }
}

// So many sources more.
fn more_sources(one: Given, often: u64) -> Result<Given, NoMemory>
    ensures { IfOk result (λ after. after ≡ stepped Step.SourceMore often one) }
{
    let sources = one.sources.checked_add(often).ok_or(NoMemory)?;
    Ok(Given { sources, ..one })
}

// So many assertions more.
fn more_assertions(one: Given, often: u64) -> Result<Given, NoMemory>
    ensures { IfOk result (λ after. after ≡ stepped Step.AssertionMore often one) }
{
    let assertions = one.assertions.checked_add(often).ok_or(NoMemory)?;
    Ok(Given { assertions, ..one })
}

// The counts below a number, that of the number, if something holds it, and those above it.
#[derive(Drop)]
struct Parted<'a> {
    below: &'a [Given],
    one: Option<Given>,
    above: &'a [Given],
}

/// The counted numbers once the step is taken for each number of a list that doesn't fall, as often as it is there. Each other number costs
/// a binary search, and the counts between them are copied as they are.
pub(crate) fn stepped_by(
    alloc: Global,
    given: &[Given],
    list: &[u32],
    step: Step,
) -> Result<Vec<Given>, NoMemory>
    requires counted { IsStrictlySortedBy nat_cmp (numbers_of given.now) }
    requires held { All (λ g. 0 < g.sources + g.assertions) given.now }
    requires rising { IsNonDecreasing list.now }
    ensures { IfOk result (λ items. AreStepped step given.now (times list.now) items.items) }
{
    let most = given.len().saturating_add(uncounted_in(given, list));
    let mut done = Vec::with_capacity(alloc, most)?;
    let mut counts = given;
    let mut numbers = list;
    while let Some((number, more)) = numbers.split_first() {
        let left = behind(more, *number);
        let often = (numbers.len() - left.len()) as u64;
        let Parted { below, one, above } = parted_at(counts, *number);
        done.extend_from_slice(below)?;
        push_counted(
            &mut done,
            step.taken(one.unwrap_or(uncounted(*number)), often)?,
        )?;
        counts = above;
        numbers = left;
    }
    done.extend_from_slice(counts)?;
    Ok(done)
}

// What is left of a list behind the first items, each of which is this number.
fn behind(list: &[u32], number: u32) -> &[u32]
    ensures behind { IsBehind number list.now result.now }
    ensures fewer { length result.now ≤ length list.now }
{
    let mut left = list;
    while let Some((first, more)) = left.split_first() {
        if *first != number {
            return left;
        }
        left = more;
    }
    left
}

// How many numbers of a list nothing holds so far, each counted once: there is room for these from the start.
fn uncounted_in(counts: &[Given], list: &[u32]) -> usize
    requires { IsStrictlySortedBy nat_cmp (numbers_of counts.now) }
{
    let mut number_of_new: usize = 0;
    let mut last = None;
    for number in list {
        if last != Some(*number) && parted_at(counts, *number).one.is_none() {
            number_of_new = number_of_new.saturating_add(1);
        }
        last = Some(*number);
    }
    number_of_new
}

// A counted number comes behind the others, unless nothing holds it.
fn push_counted(done: &mut Vec<Given>, one: Given) -> Result<(), NoMemory>
    ensures { OnOk result (done.new.items ≡ done.old.items ++ listed one) }
{
    if one.sources == 0 && one.assertions == 0 {
        return Ok(());
    }
    done.push(one)?;
    Ok(())
}

// The counts parted at a number. It costs a binary search.
fn parted_at(counts: &[Given], number: u32) -> Parted<'_>
    requires { IsStrictlySortedBy nat_cmp (numbers_of counts.now) }
    ensures { ArePartedAt counts.now number result.below.now result.one result.above.now }
{
    let place = place_of(counts, number);
    let (below, rest) = counts.split_at(place);
    let Some((one, above)) = rest.split_first() else {
        return Parted {
            below,
            one: None,
            above: rest,
        };
    };
    if one.provider == number {
        return Parted {
            below,
            one: Some(*one),
            above,
        };
    }
    Parted {
        below,
        one: None,
        above: rest,
    }
}

// How many counts are of numbers below this one.
fn place_of(counts: &[Given], number: u32) -> usize
    requires { IsStrictlySortedBy nat_cmp (numbers_of counts.now) }
    ensures bound { result ≤ length counts.now }
    ensures point { IsPartitionPoint (λ g. g.provider < number) (λ g. number ≤ g.provider)
        counts.now result }
{
    counts.partition_point(|one| one.provider < number)
}

// A number that nothing holds.
fn uncounted(provider: u32) -> Given
    ensures { result ≡ uncounted provider }
{
    Given {
        provider,
        sources: 0,
        assertions: 0,
    }
}
