//! A map of routes beside std's ordered map: thousands of routes of one peer are put, changed and taken out of both, in rising, falling and
//! scrambled order, so that the chunks of the map fill, are halved and empty; once without path identifiers, and once so that of three
//! routes to each prefix two have one. Each call must answer the same, and both hold the same.
use av_base::NoMemory;
use path_model::{Addr, Key, Peer, Prefix};
use route_map::RouteMap;
use std::alloc::Global;
use std::collections::BTreeMap;

// How many routes there are.
const ROUTES: u32 = 6_000;

// 10.0.0.1 in AS 1.
const PEER: Peer = Peer {
    addr: Addr::V4(0x0A00_0001),
    asn: 1,
};

// The peer's key of this number: of the network of that number, or where there are identifiers one of three of a network, without one,
// with 0, and with the key's number.
fn key(number: u32, identified: bool) -> Option<Key> {
    if !identified {
        return key_of(number, None);
    }
    let path = match number % 3 {
        0 => None,
        1 => Some(0),
        _ => Some(number),
    };
    key_of(number / 3, path)
}

// The peer's key of a network, of IPv4 where its number is even.
fn key_of(network: u32, path: Option<u32>) -> Option<Key> {
    let prefix = if network & 1 == 0 {
        Prefix::new(Addr::V4(network << 8), 24)?
    } else {
        Prefix::new(Addr::V6(u128::from(network) << 80), 48)?
    };
    Some(Key {
        peer: PEER,
        prefix,
        path,
    })
}

// The number of the n-th key, in steps through all of them: a step of 1 is the rising order, and one less than all the falling order.
fn numbered(n: u32, step: u32) -> u32 {
    n.wrapping_mul(step) % ROUTES
}

// How many calls answered the same, how many times both held the same, and how many entries that were in all.
#[derive(Clone, Copy, Debug, Default, PartialEq)]
struct Compared {
    calls: u32,
    lists: u32,
    entries: u32,
}

// Both maps.
#[derive(Drop)]
struct Both {
    routes: RouteMap<u32>,
    // what the map of routes should hold
    plain: BTreeMap<Key, u32>,
    // in which steps the keys come
    step: u32,
    // whether two of three have a path identifier
    identified: bool,
    compared: Compared,
}

impl Both {
    // Both without routes.
    fn new(alloc: Global, step: u32, identified: bool) -> Both {
        Both {
            routes: RouteMap::new(alloc),
            plain: BTreeMap::new(alloc),
            step,
            identified,
            compared: Compared::default(),
        }
    }

    // Counts a call that answered the same of both.
    fn count(&mut self, answer: Option<u32>, wanted: Option<u32>) {
        if answer == wanted {
            self.compared.calls = self.compared.calls.saturating_add(1);
        }
    }

    // The n-th key.
    fn key(&self, n: u32) -> Option<Key> {
        key(numbered(n, self.step), self.identified)
    }

    // Gives the n-th key a value.
    fn put(&mut self, n: u32, value: u32) -> Result<(), NoMemory> {
        match self.key(n) {
            None => Ok(()),
            Some(key) => self.insert(&key, value),
        }
    }

    // Gives a key a value in both maps.
    fn insert(&mut self, key: &Key, value: u32) -> Result<(), NoMemory> {
        let answer = self.routes.insert(*key, value)?;
        let wanted = self.plain.insert(*key, value)?;
        self.count(answer, wanted);
        Ok(())
    }

    // Takes the value of the n-th key out.
    fn take(&mut self, n: u32) {
        if let Some(key) = self.key(n) {
            let answer = self.routes.remove(&key);
            let wanted = self.plain.remove(&key);
            self.count(answer, wanted);
        }
    }

    // Gives the keys a value whose n has none of these bits.
    fn put_without(&mut self, bits: u32) -> Result<(), NoMemory> {
        for n in 0..ROUTES {
            if n & bits == 0 {
                self.put(n, n.wrapping_add(bits))?;
            }
        }
        Ok(())
    }

    // Takes out the values of the keys whose n has none of these bits.
    fn take_without(&mut self, bits: u32) {
        for n in 0..ROUTES {
            if n & bits == 0 {
                self.take(n);
            }
        }
    }

    // Compares what both hold.
    fn compare(&mut self) {
        if let Some(entries) = entries_alike(&self.routes, &self.plain) {
            self.compared.lists = self.compared.lists.saturating_add(1);
            self.compared.entries = self.compared.entries.saturating_add(entries);
        }
    }
}

// How many entries they have, if these are the same in both, one after another and looked up.
fn entries_alike(routes: &RouteMap<u32>, plain: &BTreeMap<Key, u32>) -> Option<u32> {
    let mut left = routes.iter();
    let mut entries = 0u32;
    for (key, value) in plain {
        let Some((held, held_value)) = left.next() else {
            return None;
        };
        if held != *key || *held_value != *value || routes.get(key).copied() != Some(*value) {
            return None;
        }
        entries = entries.saturating_add(1);
    }
    if left.next().is_some() {
        return None;
    }
    Some(entries)
}

// All are put, each second one is changed, all but each eighth one go, each fourth one comes again, and all go.
fn replayed(alloc: Global, step: u32, identified: bool) -> Result<Compared, NoMemory> {
    let mut both = Both::new(alloc, step, identified);
    both.put_without(0)?;
    both.compare();
    both.put_without(1)?;
    both.compare();
    both.take_without(1);
    both.compare();
    both.take_without(2);
    both.take_without(4);
    both.compare();
    both.put_without(3)?;
    both.compare();
    both.take_without(0);
    both.compare();
    Ok(both.compared)
}

#[test]
fn held_routes(rt: HostRuntime) -> Result<(), NoMemory> {
    let wanted = Compared {
        calls: 25_500,
        lists: 6,
        entries: 18_000,
    };
    for (step, identified) in [
        (1, false),
        (5_999, false),
        (4_001, false),
        (1, true),
        (5_999, true),
        (4_001, true),
    ] {
        let compared = replayed(rt.alloc(), step, identified)?;
        assert!(rt; compared == wanted, "{step} {identified}: {compared:?}");
    }
    Ok(())
}
