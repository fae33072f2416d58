//! Events that happen one after another.
ghost use Rattle.std.specs.Prelude.{◌≡◌, IfOk};
ghost use Rattle.stated_workload.specs.Happening.{HappenAll};

use analyser::{Analyser, Event};
use av_base::{NoMemory, Steps};
use std::sync::ledger::Ledger;

/// The analysis after all these events, from the first to the last.
#[tactic(auto, using(crate::proofs::HappeningLemmas::happening_steps))]
pub(crate) fn happen_all<L: Ledger>(
    analyser: Analyser,
    events: Vec<Event>,
    steps: &mut Steps<L>,
) -> Result<Analyser, NoMemory>
    ensures { IfOk result (λ next. HappenAll analyser events.items next) }
{
    let mut analyser = analyser;
    for event in events {
        analyser = analyser.step(event, steps)?;
    }
    Ok(analyser)
}
