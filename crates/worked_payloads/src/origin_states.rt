//! States of routes by validated ROA payloads: the rules of RFC 6811, section 2, and those of RFC 8416 for filters and assertions.
use origin_model::{PrefixFilter, PrefixFilters, Vrp, VrpSet};
use origin_validation::{OriginState, Records};
use path_model::{Addr, Name, Prefix};
use std::alloc::Global;

// The prefix of an IPv4 address.
pub(crate) fn four(bits: u32, len: u8) -> Option<Prefix> {
    Prefix::new(Addr::V4(bits), len)
}

// The payloads of these: the address and the length of the prefix, the maximum length, and the AS.
pub(crate) fn payloads(alloc: Global, table: &[(u32, u8, u8, u32)]) -> Option<VrpSet> {
    let mut set = VrpSet::new(alloc);
    for (bits, len, max, asn) in table {
        set.add(Vrp::new(four(*bits, *len)?, *max, *asn)?).ok()?;
    }
    Some(set)
}

// Gives a source these payloads.
fn give(alloc: Global, records: &mut Records, name: &[u8], set: VrpSet) -> Option<()> {
    match Name::new(alloc, name) {
        Ok(Some(name)) => {
            records.put(name, set).ok()?;
            Some(())
        }
        _ => None,
    }
}

// The state of a route to the first `len` bits of an IPv4 address.
fn state(records: &Records, bits: u32, len: u8, origin: Option<u32>) -> Option<OriginState> {
    Some(records.state(&four(bits, len)?, origin))
}

// Two sources: 10.0.0.0/16 up to 20 bits for AS 64500, 10.0.128.0/24 for AS 64501 and AS 0, 192.0.2.0/24 for AS 0.
fn two_sources(alloc: Global) -> Option<Records> {
    let mut records = Records::new(alloc);
    let one = payloads(
        alloc,
        &[
            (0x0a00_0000, 16, 20, 64_500),
            (0x0a00_8000, 24, 24, 64_501),
            (0xc000_0200, 24, 32, 0),
        ],
    )?;
    give(alloc, &mut records, b"one", one)?;
    let other = payloads(alloc, &[(0x0a00_8000, 24, 24, 0)])?;
    give(alloc, &mut records, b"other", other)?;
    Some(records)
}

// A prefix's bits and length, an origin, and the state.
const STATES: [(u32, u8, Option<u32>, OriginState); 12] = [
    (0x0a00_0000, 16, Some(64_500), OriginState::Valid),
    (0x0a00_1000, 20, Some(64_500), OriginState::Valid),
    // too long, another origin, none
    (0x0a00_1000, 21, Some(64_500), OriginState::Invalid),
    (0x0a00_1000, 20, Some(64_501), OriginState::Invalid),
    (0x0a00_1000, 20, None, OriginState::Invalid),
    // shorter than each payload's prefix, and beside it
    (0x0a00_0000, 15, Some(64_500), OriginState::NotFound),
    (0x0a01_0000, 16, Some(64_500), OriginState::NotFound),
    (0x0a01_0000, 16, None, OriginState::NotFound),
    // the payload of AS 0 takes nothing from the other one
    (0x0a00_8000, 24, Some(64_501), OriginState::Valid),
    (0x0a00_8000, 24, Some(64_500), OriginState::Invalid),
    // AS 0 alone makes nothing valid
    (0xc000_0200, 24, Some(0), OriginState::Invalid),
    (0xc000_0201, 32, Some(64_500), OriginState::Invalid),
];

#[test]
fn payloads_cover_and_match(rt: HostRuntime) {
    for (bits, len, origin, right) in STATES {
        let records = two_sources(rt.alloc());
        assert!(rt;
            records.is_some_and(|records| state(&records, bits, len, origin) == Some(right))
        );
    }
}

// The state of a route to the same bits in the other family.
fn state_of_six(alloc: Global) -> Option<OriginState> {
    let six = Prefix::new(Addr::V6(0x0a00_0000 << 96), 16)?;
    Some(two_sources(alloc)?.state(&six, Some(64_500)))
}

#[test]
fn payloads_of_one_family_cover_none_of_the_other(rt: HostRuntime) {
    assert!(rt; state_of_six(rt.alloc()) == Some(OriginState::NotFound));
}

// A filter's prefix, as an address and a length, and its AS.
type Filter = (Option<(u32, u8)>, Option<u32>);

// The two sources with this filter, and with 198.51.100.0/24 asserted for AS 64500.
fn filtered(alloc: Global, filter: Filter) -> Option<Records> {
    let prefix = match filter.0 {
        Some((bits, len)) => Some(four(bits, len)?),
        None => None,
    };
    let mut filters = PrefixFilters::new(alloc);
    let asn = filter.1;
    filters.push(PrefixFilter { prefix, asn }).ok()?;
    let mut records = two_sources(alloc)?;
    records.amend(filters, payloads(alloc, &[(0xc633_6400, 24, 24, 64_500)])?);
    Some(records)
}

// 10.0.0.0/17 covers no payload's prefix: that of 10.0.0.0/16 is shorter.
const BY_PREFIX: Filter = (Some((0x0a00_0000, 17)), None);

const BY_BOTH: Filter = (Some((0x0a00_8000, 17)), Some(64_501));

const BY_ALL: Filter = (None, None);

const FILTERED: [(Filter, u32, u8, u32, OriginState); 6] = [
    (BY_PREFIX, 0x0a00_0000, 16, 64_500, OriginState::Valid),
    (BY_BOTH, 0x0a00_8000, 24, 64_501, OriginState::Invalid),
    (BY_BOTH, 0x0a00_8000, 20, 64_500, OriginState::Valid),
    (BY_ALL, 0x0a00_0000, 16, 64_500, OriginState::NotFound),
    (BY_ALL, 0xc633_6400, 24, 64_500, OriginState::Valid),
    (BY_ALL, 0xc633_6400, 24, 64_499, OriginState::Invalid),
];

#[test]
fn filters_hit_the_sources_alone(rt: HostRuntime) {
    for (filter, bits, len, origin, right) in FILTERED {
        let records = filtered(rt.alloc(), filter);
        assert!(rt;
            records.is_some_and(|records| state(&records, bits, len, Some(origin)) == Some(right))
        );
    }
}

// The records of a source that had the payloads of these ASes, one after another, and at last none where it is so.
fn given(alloc: Global, asns: &[u32], emptied: bool) -> Option<Records> {
    let mut records = Records::new(alloc);
    for asn in asns {
        let set = payloads(alloc, &[(0xc633_6400, 24, 24, *asn)])?;
        give(alloc, &mut records, b"cache", set)?;
    }
    if emptied {
        give(alloc, &mut records, b"cache", VrpSet::new(alloc))?;
    }
    Some(records)
}

const GIVEN: [(&[u32], bool, OriginState); 3] = [
    (&[64_500], false, OriginState::Valid),
    (&[64_500, 64_499], false, OriginState::Invalid),
    (&[64_500, 64_499], true, OriginState::NotFound),
];

#[test]
fn a_source_has_its_last_payloads(rt: HostRuntime) {
    for (asns, emptied, right) in GIVEN {
        let records = given(rt.alloc(), asns, emptied);
        assert!(rt;
            records.is_some_and(|records| state(&records, 0xc633_6400, 24, Some(64_500))
                == Some(right))
        );
    }
}
