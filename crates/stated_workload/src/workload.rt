//! The events of a seed.
ghost use Rattle.std.specs.Prelude.{◌≡◌, IfOk};
ghost use Rattle.stated_workload.specs.Workload.{DrawsLoading, IsWorkload, source_name};

use crate::amendments::add_amendments;
use crate::announcements::add_announcements;
use crate::roles::add_roles;
use crate::rows::draw_rows;
use analyser::Event;
use attestations::Terms;
use av_base::NoMemory;
use path_model::Name;
use rand_pcg::Lcg64Xsh32;
use std::alloc::Global;
use vap_table::TableChange;

/// What happens, in order.
#[derive(Debug, Drop)]
pub struct Workload {
    /// 20,021 events that load an analysis: what one source attests, the roles of 20 peers, and 20,000 announcements.
    pub loading: Vec<Event>,
    /// 1,000 amendments by hand.
    pub amending: Vec<Event>,
}

/// The workload of a seed.
pub fn workload_of(alloc: Global, seed: u64) -> Result<Workload, NoMemory>
    ensures { IfOk result (λ workload.
        IsWorkload seed workload.loading.items workload.amending.items) }
{
    let mut rng = Lcg64Xsh32::new(seed, 0);
    let loading = draw_loading(alloc, &mut rng)?;
    let mut amending = Vec::new(alloc);
    add_amendments(alloc, &mut rng, &mut amending)?;
    Ok(Workload { loading, amending })
}

// The events that load.
fn draw_loading(alloc: Global, rng: &mut Lcg64Xsh32) -> Result<Vec<Event>, NoMemory>
    ensures { IfOk result (λ events. DrawsLoading rng.old events.items rng.new) }
{
    let rows = draw_rows(alloc, rng)?;
    let terms = Terms::of(alloc, rows)?;
    let name = name_of_source(alloc)?;
    let mut events = Vec::new(alloc);
    events.push(Event::Table(TableChange::Replace(name, terms)))?;
    add_roles(&mut events)?;
    add_announcements(alloc, rng, &mut events)?;
    Ok(events)
}

// The name of the source.
fn name_of_source(alloc: Global) -> Result<Name, NoMemory>
    ensures { IfOk result (λ name. name ≡ source_name) }
{
    Ok(Name::new(alloc, b"demo")?.unwrap())
}
