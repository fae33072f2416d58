//! The store of routes: what it shows of one, what it counts, and the roles that it keeps.
ghost use Rattle.std.specs.Prelude.{◌≡◌};

use av_base::{NoMemory, Steps};
use path_model::{Addr, Changes, Key, Peer, Prefix, Role, Trail, Verdict};
use rib_store::{Counts, RibStore};
use std::alloc::Global;
use std::marker::Brand;
use std::sync::ledger::{Blank, Ledger};

// 192.0.2.1 in AS 64501, a customer.
pub(crate) const FIRST: Peer = Peer {
    addr: Addr::V4(0xC000_0201),
    asn: 64501,
};

// 192.0.2.2 in AS 64502, which has no role of its own.
pub(crate) const SECOND: Peer = Peer {
    addr: Addr::V4(0xC000_0202),
    asn: 64502,
};

// The peer's key of a network of IPv4 of 24 bits, without a path identifier.
pub(crate) fn key(peer: Peer, network: u32) -> Option<Key> {
    let prefix = Prefix::new(Addr::V4(network), 24)?;
    let path = None;
    Some(Key { peer, prefix, path })
}

pub(crate) const NETWORK: u32 = 0xC633_6400;

// Both peers' routes to 198.51.100.0/24 come from the silent AS 64503.
pub(crate) fn routes(alloc: Global) -> Result<Changes, NoMemory> {
    let mut changes = Changes::new(alloc);
    if let Some(key) = key(FIRST, NETWORK) {
        changes.announce(key, Trail::new(alloc, false, &[64501, 64503])?)?;
    }
    if let Some(key) = key(SECOND, NETWORK) {
        changes.announce(key, Trail::new(alloc, false, &[64502, 64503])?)?;
    }
    Ok(changes)
}

// What is shown of a key: the verdict, the role, and of the path the origin and the length.
pub(crate) type Seen = (Verdict, Role, Option<u32>, usize);

fn seen(store: &RibStore, peer: Peer, network: u32) -> Option<Seen> {
    let key = key(peer, network)?;
    let shown = store.look(&key)?;
    let chain = shown.trail.chain();
    Some((shown.verdict, shown.role, chain.get(0), chain.len()))
}

// What a store of these routes answers.
#[derive(Drop)]
struct Answers {
    first: Option<Seen>,
    second: Option<Seen>,
    absent: Option<Seen>,
    counts: Counts,
    role: Role,
    default: Role,
}

fn ask(store: &RibStore) -> Answers {
    Answers {
        first: seen(store, FIRST, NETWORK),
        second: seen(store, SECOND, NETWORK),
        absent: seen(store, FIRST, 0xCB00_7100),
        counts: store.counts(),
        role: store.roles().of(64501),
        default: store.roles().of(64502),
    }
}

// Asks the store with a counter of steps of its own.
fn asked<L: Ledger>(alloc: Global, blank: Blank) -> Result<Answers, NoMemory>
    requires name { blank.name ≡ L.name }
    requires parts { blank.parts ≡ L.parts }
    requires one { L.parts ≡ 1 }
{
    let changes = routes(alloc)?;
    let mut steps = Steps::<L>::new(blank);
    let mut store = RibStore::new(alloc);
    store.apply_routes(changes, &mut steps)?;
    let store = store.set_role(64501, Role::Customer, &mut steps)?;
    Ok(ask(&store))
}

// Asks with a counter that is made here.
fn asked_once(alloc: Global) -> Result<Answers, NoMemory> {
    asked::<Brand>(alloc, Blank::new(1))
}

// A customer's route over a hop that nobody attests is unknown, and a provider's may have one such hop.
fn are_right(answers: &Answers) -> bool {
    let counts = Counts {
        routes: 2,
        valid: 1,
        unknown: 1,
        invalid: 0,
    };
    answers.first == Some((Verdict::Unknown, Role::Customer, Some(64503), 2))
        && answers.second == Some((Verdict::Valid, Role::Provider, Some(64503), 2))
        && answers.absent.is_none()
        && answers.counts == counts
        && answers.role == Role::Customer
        && answers.default == Role::Provider
}

#[test]
fn a_store_is_asked(rt: HostRuntime) -> Result<(), NoMemory> {
    let answers = asked_once(rt.alloc())?;
    assert!(rt; are_right(&answers));
    Ok(())
}
