//! A map of routes of 65,535 peers, as many as a table can name, with one route each, two at each address, so that peers are found with and
//! without their hints, and the last one moves where another one goes: all are added, each second one goes and comes again, and all go. What
//! is wanted is worked out from the peers' numbers, which are 1 to 65,535: number 0 has no bit, so that it never gets a route.
use av_base::NoMemory;
use path_model::{Addr, Key, Peer, Prefix};
use route_map::RouteMap;
use std::alloc::Global;
use std::cmp::Ordering;

// How many numbers there are, with number 0.
const PEERS: u32 = 65_536;

// The peer of this number. Two stand at each address, by turns of IPv4 and of IPv6.
fn peer(number: u32) -> Peer {
    let place = number / 2;
    let addr = if place & 1 == 0 {
        Addr::V4(0x0A00_0000 | place)
    } else {
        Addr::V6(u128::from(place))
    };
    Peer {
        addr,
        asn: 64_500 | number & 1,
    }
}

// Its route.
fn key(number: u32) -> Option<Key> {
    let prefix = Prefix::new(Addr::V4(number << 8), 24)?;
    Some(Key {
        peer: peer(number),
        prefix,
        path: None,
    })
}

// The number of the n-th peer, in steps of 7 through all of them.
fn numbered(n: u32) -> u32 {
    n.wrapping_mul(7) % PEERS
}

// Adds the routes of the peers whose number has one of these bits, and answers how many of them were new.
fn add(routes: &mut RouteMap<u32>, bits: u32) -> Result<u32, NoMemory> {
    let mut new = 0u32;
    for n in 0..PEERS {
        let number = numbered(n);
        if let Some(key) = key(number) {
            if number & bits != 0 && routes.insert(key, number)?.is_none() {
                new = new.saturating_add(1);
            }
        }
    }
    Ok(new)
}

// Withdraws them, and answers how many had their peer's number.
fn withdraw(routes: &mut RouteMap<u32>, bits: u32) -> u32 {
    let mut right = 0u32;
    for n in 0..PEERS {
        let number = numbered(n);
        if let Some(key) = key(number) {
            if number & bits != 0 && routes.remove(&key) == Some(number) {
                right = right.saturating_add(1);
            }
        }
    }
    right
}

// Of how many peers the map has the number, and nothing of the others: looked up, and as the peer's one route.
fn held(routes: &RouteMap<u32>) -> (u32, u32) {
    let mut there = 0u32;
    let mut gone = 0u32;
    for number in 0..PEERS {
        if let Some(key) = key(number) {
            match (routes.get(&key), routes.one_of(&key.peer)) {
                (Some(value), Some(one)) if *value == number && one == key => {
                    there = there.saturating_add(1);
                }
                (None, None) => gone = gone.saturating_add(1),
                _ => (),
            }
        }
    }
    (there, gone)
}

// How many routes come in order, each with its peer's number.
fn in_order(routes: &RouteMap<u32>) -> u32 {
    let mut before = None;
    let mut right = 0u32;
    for (found, number) in routes.iter() {
        if is_its(*number, &found) && is_above(before, &found) {
            right = right.saturating_add(1);
        }
        before = Some(found);
    }
    right
}

// Whether the key is that of the peer of this number.
fn is_its(number: u32, found: &Key) -> bool {
    match key(number) {
        None => false,
        Some(key) => key == *found,
    }
}

// Whether the key is greater than the one before it, if there is one.
fn is_above(before: Option<Key>, found: &Key) -> bool {
    match before {
        None => true,
        Some(before) => before.cmp(found) == Ordering::Less,
    }
}

#[test]
fn many_peers(rt: HostRuntime) -> Result<(), NoMemory> {
    let mut routes = RouteMap::new(rt.alloc());
    let all = u32::MAX;
    assert!(rt; add(&mut routes, all)? == 65_535, "number 0 has no bit");
    assert!(rt; held(&routes) == (65_535, 1), "{:?}", held(&routes));
    assert!(rt; in_order(&routes) == 65_535);
    assert!(rt; withdraw(&mut routes, 1) == 32_768);
    assert!(rt; held(&routes) == (32_767, 32_769), "{:?}", held(&routes));
    assert!(rt; in_order(&routes) == 32_767);
    assert!(rt; add(&mut routes, 3)? == 32_768);
    assert!(rt; held(&routes) == (65_535, 1), "{:?}", held(&routes));
    assert!(rt; in_order(&routes) == 65_535);
    assert!(rt; withdraw(&mut routes, all) == 65_535);
    assert!(rt; held(&routes) == (0, 65_536), "{:?}", held(&routes));
    assert!(rt; routes.len() == 0);
    Ok(())
}
