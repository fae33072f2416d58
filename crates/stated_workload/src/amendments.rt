//! What is amended by hand.
ghost use Rattle.std.specs.Prelude.{◌≡◌, ◌<◌, IfOk, OnOk};
ghost use Rattle.stated_workload.specs.Draws.{Adds};
ghost use Rattle.stated_workload.specs.Workload.{DrawsAmended, DrawsAmendment};

use crate::draws::{draw, draw_as};
use analyser::Event;
use av_base::NoMemory;
use path_model::AsList;
use rand_pcg::Lcg64Xsh32;
use std::alloc::Global;
use vap_table::TableChange;

const AMENDMENTS: u32 = 1000;

/// Adds all amendments.
#[tactic(auto, using(crate::proofs::DrawsLemmas::draw_steps))]
pub(crate) fn add_amendments(
    alloc: Global,
    rng: &mut Lcg64Xsh32,
    events: &mut Vec<Event>,
) -> Result<(), NoMemory>
    ensures { OnOk result
        (Adds (λ _. DrawsAmendment) 1000 rng.old events.old.items events.new.items rng.new) }
{
    for _turn in 0..AMENDMENTS {
        events.push(draw_amendment(alloc, rng)?)?;
    }
    Ok(())
}

// One amendment.
fn draw_amendment(alloc: Global, rng: &mut Lcg64Xsh32) -> Result<Event, NoMemory>
    ensures { IfOk result (λ event. DrawsAmendment rng.old event rng.new) }
{
    let x = draw_as(rng);
    let m = draw(rng, 4);
    Ok(Event::Table(draw_amended(alloc, rng, m, x)?))
}

// The amendment of this number, for customer x.
#[tactic(auto, using(crate::proofs::WorkloadLemmas::amendment_steps))]
fn draw_amended(
    alloc: Global,
    rng: &mut Lcg64Xsh32,
    m: u32,
    x: u32,
) -> Result<TableChange, NoMemory>
    ensures { IfOk result (λ change. DrawsAmended m x rng.old change rng.new) }
{
    match m {
        0 => Ok(TableChange::Filter(x)),
        1 => Ok(TableChange::Unfilter(x)),
        2 => {
            let provider = draw_as(rng);
            Ok(TableChange::Assert(x, AsList::from_slice(alloc, &[provider])?))
        }
        _ => Ok(TableChange::Unassert(x)),
    }
}
