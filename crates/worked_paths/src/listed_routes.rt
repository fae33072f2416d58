//! The store of routes: all of them as they stand, and the distinct pairs of a peer AS and a path.
ghost use Rattle.std.specs.Prelude.{◌≡◌};

use crate::routes::{FIRST, NETWORK, SECOND, Seen, key, routes};
use av_base::{NoMemory, Steps};
use path_model::{Changes, Peer, Role, Trail, Verdict};
use rib_store::RibStore;
use std::alloc::Global;
use std::marker::Brand;
use std::sync::ledger::{Blank, Ledger};

const OTHER_NETWORK: u32 = 0xCB00_7100;

// Both peers' routes to 198.51.100.0/24, and the first peer's route to 203.0.113.0/24 over the same path as its other one.
fn three_routes(alloc: Global) -> Result<Changes, NoMemory> {
    let mut changes = routes(alloc)?;
    if let Some(key) = key(FIRST, OTHER_NETWORK) {
        changes.announce(key, Trail::new(alloc, false, &[64501, 64503])?)?;
    }
    Ok(changes)
}

// What is shown of the route behind so many others, if it is the peer's to this network.
fn shown_at(store: &RibStore, before: usize, peer: Peer, network: u32) -> Option<Seen> {
    let mut left = before;
    for (found, shown) in store.shown() {
        if left == 0 {
            if Some(found) != key(peer, network) {
                return None;
            }
            let chain = shown.trail.chain();
            return Some((shown.verdict, shown.role, chain.get(0), chain.len()));
        }
        left -= 1;
    }
    None
}

// How many routes from an AS have the path of its first pair, with the role and the verdict.
type Use = (u64, Role, Verdict);

fn use_of(store: &RibStore, asn: u32) -> Option<Use> {
    for pair in store.pairs() {
        if pair.asn == asn {
            return Some((pair.routes, pair.role, pair.verdict));
        }
    }
    None
}

// What a store of these routes lists.
#[derive(Drop)]
struct Listed {
    first: Option<Seen>,
    second: Option<Seen>,
    third: Option<Seen>,
    rows: usize,
    customer: Option<Use>,
    provider: Option<Use>,
    pairs: usize,
}

fn list(store: &RibStore) -> Listed {
    Listed {
        first: shown_at(store, 0, FIRST, NETWORK),
        second: shown_at(store, 1, FIRST, OTHER_NETWORK),
        third: shown_at(store, 2, SECOND, NETWORK),
        rows: store.shown().count(),
        customer: use_of(store, 64501),
        provider: use_of(store, 64502),
        pairs: store.pairs().count(),
    }
}

// Lists with a counter of steps of its own.
fn listed_by<L: Ledger>(alloc: Global, blank: Blank) -> Result<Listed, NoMemory>
    requires name { blank.name ≡ L.name }
    requires parts { blank.parts ≡ L.parts }
    requires one { L.parts ≡ 1 }
{
    let changes = three_routes(alloc)?;
    let mut steps = Steps::<L>::new(blank);
    let mut store = RibStore::new(alloc);
    store.apply_routes(changes, &mut steps)?;
    let store = store.set_role(64501, Role::Customer, &mut steps)?;
    Ok(list(&store))
}

// Lists with a counter that is made here.
fn listed_once(alloc: Global) -> Result<Listed, NoMemory> {
    listed_by::<Brand>(alloc, Blank::new(1))
}

// A customer's route over a hop that nobody attests is unknown, and a provider's may have one such hop.
fn are_right(listed: &Listed) -> bool {
    let (customer, provider) = (Role::Customer, Role::Provider);
    let unknown = Some((Verdict::Unknown, customer, Some(64503), 2));
    listed.first == unknown
        && listed.second == unknown
        && listed.third == Some((Verdict::Valid, provider, Some(64503), 2))
        && listed.rows == 3
        && listed.customer == Some((2, customer, Verdict::Unknown))
        && listed.provider == Some((1, provider, Verdict::Valid))
        && listed.pairs == 2
}

#[test]
fn a_store_is_listed(rt: HostRuntime) -> Result<(), NoMemory> {
    let listed = listed_once(rt.alloc())?;
    assert!(rt; are_right(&listed));
    Ok(())
}
