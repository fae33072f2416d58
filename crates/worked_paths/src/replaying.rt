//! What events, marks and gathering make of an analysis is what their contracts say. Runs of many events call them through these functions,
//! which say nothing of it: so the proofs of the runs, which need none of it, stay small.
use analyser::{Analyser, Event};
use av_base::{NoMemory, Steps};
use path_model::AsList;
use std::alloc::Global;
use std::sync::ledger::Ledger;
use vap_table::TableChange;

/// One more event.
pub fn happen<L: Ledger>(
    analyser: Analyser,
    event: Event,
    steps: &mut Steps<L>,
) -> Result<Analyser, NoMemory> {
    analyser.step(event, steps)
}

/// A customer attests one provider.
pub fn assert_one<L: Ledger>(
    alloc: Global,
    analyser: Analyser,
    customer: u32,
    provider: u32,
    steps: &mut Steps<L>,
) -> Result<Analyser, NoMemory> {
    let providers = AsList::from_slice(alloc, &[provider])?;
    analyser.step(
        Event::Table(TableChange::Assert(customer, providers)),
        steps,
    )
}

/// What is asserted of a customer is taken back.
pub fn unassert<L: Ledger>(
    analyser: Analyser,
    customer: u32,
    steps: &mut Steps<L>,
) -> Result<Analyser, NoMemory> {
    analyser.step(Event::Table(TableChange::Unassert(customer)), steps)
}

/// Changes are gathered.
pub fn gather(mut analyser: Analyser) -> Result<Analyser, NoMemory> {
    analyser.gather()?;
    Ok(analyser)
}

/// All verdicts are marked.
pub fn mark(analyser: Analyser) -> Analyser {
    analyser.mark()
}
