//! States that are held, and asked for again behind what comes and goes.
use crate::origin_states::{four, payloads};
use OriginState::{Invalid, NotFound, Valid};
use origin_model::{PrefixFilter, PrefixFilters, Vrp, VrpChanges, VrpSet};
use origin_validation::{OriginState, Origins};
use path_model::Name;
use std::alloc::Global;

// The state of a route to the first `len` bits of an IPv4 address.
fn asked(origins: &mut Origins, bits: u32, len: u8, origin: u32) -> Option<OriginState> {
    origins.state(&four(bits, len)?, Some(origin)).ok()
}

fn cache(alloc: Global) -> Option<Name> {
    Name::new(alloc, b"cache").ok()?
}

// The cache has these payloads from now on.
fn give(alloc: Global, origins: &mut Origins, table: &[(u32, u8, u8, u32)]) -> Option<()> {
    origins.replace(cache(alloc)?, payloads(alloc, table)?).ok()
}

// The cache withdraws 10.0.0.0/16 up to 24 bits for AS 64500, and announces it up to 20 bits.
fn shorten(alloc: Global, origins: &mut Origins) -> Option<()> {
    let mut changes = VrpChanges::new(alloc);
    let prefix = four(0x0a00_0000, 16)?;
    changes.note(Vrp::new(prefix, 24, 64_500)?, false).ok()?;
    changes.note(Vrp::new(prefix, 20, 64_500)?, true).ok()?;
    origins.patch(cache(alloc)?, changes).ok()
}

// The payloads under 10.0.0.0/8 are filtered, and 10.0.2.0/24 is asserted for AS 64500.
fn filter(alloc: Global, origins: &mut Origins) -> Option<()> {
    let mut filters = PrefixFilters::new(alloc);
    let prefix = Some(four(0x0a00_0000, 8)?);
    filters.push(PrefixFilter { prefix, asn: None }).ok()?;
    origins.slurm(filters, payloads(alloc, &[(0x0a00_0200, 24, 24, 64_500)])?);
    Some(())
}

// The states of 10.0.1.0/24 and 10.0.2.0/24 from AS 64500, of 10.0.1.0/24 from AS 64499, and of 10.1.0.0/24 from AS 64500.
fn are(origins: &mut Origins, right: [OriginState; 4]) -> bool {
    let routes = [
        (0x0a00_0100, 64_500),
        (0x0a00_0200, 64_500),
        (0x0a00_0100, 64_499),
        (0x0a01_0000, 64_500),
    ];
    for i in 0..4 {
        let (bits, origin) = routes[i];
        if asked(origins, bits, 24, origin) != Some(right[i]) {
            return false;
        }
    }
    true
}

// One thing after another: nothing, a payload, a shorter one, a filter and an assertion, room for none, neither filter nor assertion, no payload.
fn step(alloc: Global, origins: &mut Origins, number: usize) -> Option<()> {
    match number {
        1 => give(alloc, origins, &[(0x0a00_0000, 16, 24, 64_500)])?,
        2 => shorten(alloc, origins)?,
        3 => filter(alloc, origins)?,
        4 => origins.make_room(0),
        5 => origins.slurm(PrefixFilters::new(alloc), VrpSet::new(alloc)),
        6 => give(alloc, origins, &[])?,
        _ => {}
    }
    Some(())
}

const STATES: [[OriginState; 4]; 7] = [
    [NotFound, NotFound, NotFound, NotFound],
    [Valid, Valid, Invalid, NotFound],
    [Invalid, Invalid, Invalid, NotFound],
    [NotFound, Valid, NotFound, NotFound],
    [NotFound, Valid, NotFound, NotFound],
    [Invalid, Invalid, Invalid, NotFound],
    [NotFound, NotFound, NotFound, NotFound],
];

#[test]
fn states_follow_what_comes_and_goes(rt: HostRuntime) {
    let mut origins = Origins::new(rt.alloc());
    for (number, right) in STATES.iter().enumerate() {
        assert!(rt; step(rt.alloc(), &mut origins, number).is_some());
        assert!(rt; are(&mut origins, *right));
    }
}
