//! How many judgements each event of a row takes, from an analysis in which nothing has happened yet. Contracts say it, and they are
//! proved: no program can read a counter of steps.
ghost use Rattle.std.specs.Prelude.{◌≡◌, ◌+◌, ◌≤◌, IfOk};
ghost use Rattle.rib_store.specs.State.{no_state};
ghost use Rattle.worked_paths.specs.Ticks.{announced_state, default_role_state, filtered_state, origin_asserted_state, other_asserted_state, other_role_state, peer_role_state};

use analyser::{Analyser, Event};
use av_base::{NoMemory, Steps};
use path_model::{Addr, AsList, Changes, Key, Peer, Prefix, Role, Trail};
use std::alloc::Global;
use std::marker::Brand;
use std::sync::ledger::{Blank, Ledger};
use vap_table::TableChange;

// A route is announced: one judgement at most.
fn announce<L: Ledger>(
    alloc: Global,
    analyser: Analyser,
    steps: &mut Steps<L>,
) -> Result<Analyser, NoMemory>
    requires { analyser ≡ no_state }
    ensures state { IfOk result (λ next. next ≡ announced_state) }
    ensures ticks { steps.new ≤ steps.old + 1 }
{
    let peer = Peer {
        addr: Addr::V4(0xC000_0201),
        asn: 64501,
    };
    let prefix = Prefix::new(Addr::V4(0xC633_6400), 24).unwrap();
    let trail = Trail::new(alloc, false, &[64501, 64500])?;
    let mut changes = Changes::new(alloc);
    let path = None;
    changes.announce(Key { peer, prefix, path }, trail)?;
    analyser.step(Event::Routes(changes), steps)
}

// An AS that is in no path attests another: no judgement.
fn assert_other<L: Ledger>(
    alloc: Global,
    analyser: Analyser,
    steps: &mut Steps<L>,
) -> Result<Analyser, NoMemory>
    requires { analyser ≡ announced_state }
    ensures state { IfOk result (λ next. next ≡ other_asserted_state) }
    ensures ticks { steps.new ≤ steps.old }
{
    let providers = AsList::from_slice(alloc, &[8])?;
    analyser.step(Event::Table(TableChange::Assert(7, providers)), steps)
}

// The origin is filtered out, of which no source has a row: no judgement.
fn filter<L: Ledger>(analyser: Analyser, steps: &mut Steps<L>) -> Result<Analyser, NoMemory>
    requires { analyser ≡ other_asserted_state }
    ensures state { IfOk result (λ next. next ≡ filtered_state) }
    ensures ticks { steps.new ≤ steps.old }
{
    analyser.step(Event::Table(TableChange::Filter(64500)), steps)
}

// The origin attests the neighbour: one at most.
fn assert_origin<L: Ledger>(
    alloc: Global,
    analyser: Analyser,
    steps: &mut Steps<L>,
) -> Result<Analyser, NoMemory>
    requires { analyser ≡ filtered_state }
    ensures state { IfOk result (λ next. next ≡ origin_asserted_state) }
    ensures ticks { steps.new ≤ steps.old + 1 }
{
    let providers = AsList::from_slice(alloc, &[64501])?;
    analyser.step(Event::Table(TableChange::Assert(64500, providers)), steps)
}

// An AS that is no peer's has a role: no judgement.
fn set_other<L: Ledger>(analyser: Analyser, steps: &mut Steps<L>) -> Result<Analyser, NoMemory>
    requires { analyser ≡ origin_asserted_state }
    ensures state { IfOk result (λ next. next ≡ other_role_state) }
    ensures ticks { steps.new ≤ steps.old }
{
    analyser.step(Event::Role(1, Role::Peer), steps)
}

// The peer's AS has another role than before: one at most.
fn set_peer<L: Ledger>(analyser: Analyser, steps: &mut Steps<L>) -> Result<Analyser, NoMemory>
    requires { analyser ≡ other_role_state }
    ensures state { IfOk result (λ next. next ≡ peer_role_state) }
    ensures ticks { steps.new ≤ steps.old + 1 }
{
    analyser.step(Event::Role(64501, Role::Customer), steps)
}

// All ASes that have no role of their own have another one than before, and the peer's has one: no judgement.
fn set_default<L: Ledger>(analyser: Analyser, steps: &mut Steps<L>) -> Result<Analyser, NoMemory>
    requires { analyser ≡ peer_role_state }
    ensures state { IfOk result (λ next. next ≡ default_role_state) }
    ensures ticks { steps.new ≤ steps.old }
{
    analyser.step(Event::DefaultRole(Role::Customer), steps)
}

// The whole row: three judgements at most, whether it ends well or not.
fn happen<L: Ledger>(alloc: Global, steps: &mut Steps<L>) -> Result<Analyser, NoMemory>
    ensures state { IfOk result (λ last. last ≡ default_role_state) }
    ensures ticks { steps.new ≤ steps.old + 3 }
{
    let analyser = announce(alloc, Analyser::new(alloc)?, steps)?;
    let analyser = assert_other(alloc, analyser, steps)?;
    let analyser = filter(analyser, steps)?;
    let analyser = assert_origin(alloc, analyser, steps)?;
    let analyser = set_other(analyser, steps)?;
    let analyser = set_peer(analyser, steps)?;
    set_default(analyser, steps)
}

// The row with a counter of its own.
fn happened<L: Ledger>(alloc: Global, blank: Blank) -> Result<Analyser, NoMemory>
    requires name { blank.name ≡ L.name }
    requires parts { blank.parts ≡ L.parts }
    requires one { L.parts ≡ 1 }
    ensures { IfOk result (λ last. last ≡ default_role_state) }
{
    let mut steps = Steps::<L>::new(blank);
    happen(alloc, &mut steps)
}

// The row with a counter that is made here.
fn happened_once(alloc: Global) -> Result<Analyser, NoMemory> {
    happened::<Brand>(alloc, Blank::new(1))
}

// Seven events take three judgements at most, by the contract of `happen`. A customer's route over a hop that is attested is valid.
#[test]
fn judged_at_most_thrice(rt: HostRuntime) -> Result<(), NoMemory> {
    let analyser = happened_once(rt.alloc())?;
    assert_eq!(rt; analyser.store().counts().valid, 1);
    Ok(())
}
