//! The roles of the peers.
ghost use Rattle.std.specs.Prelude.{◌≡◌, ◌++◌, OnOk};
ghost use Rattle.stated_workload.specs.Workload.{role_numbered, role_events};

use analyser::Event;
use av_base::NoMemory;
use path_model::Role;

const PEERS: u32 = 20;

/// Adds the events that give each peer's AS its role.
#[tactic(auto, using(crate::proofs::WorkloadLemmas::role_steps))]
pub(crate) fn add_roles(events: &mut Vec<Event>) -> Result<(), NoMemory>
    ensures { OnOk result (events.new.items ≡ events.old.items ++ role_events 20) }
{
    for q in 0..PEERS {
        events.push(Event::Role(1 + q, role_numbered(q % 6)))?;
    }
    Ok(())
}

// The role of this number, from 0.
fn role_numbered(n: u32) -> Role
    ensures { result ≡ role_numbered n }
{
    match n {
        0 => Role::Provider,
        1 => Role::Customer,
        2 => Role::Peer,
        3 => Role::Rs,
        4 => Role::RsClient,
        _ => Role::Mutual,
    }
}
