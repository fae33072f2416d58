//! SLURM files: what good ones say.
use origin_model::Vrp;
use path_model::{Addr, Prefix};
use slurm_rules::{Slurm, SlurmFault, read};
use std::alloc::Global;

const FILE: &[u8] =
    b"{\"slurmVersion\":2,\"validationOutputFilters\":{\"prefixFilters\":[],\"bgpsecFilters\":[],\"aspaFilters\":[{\"customerAsn\":64496}]},\"locallyAddedAssertions\":{\"prefixAssertions\":[],\"bgpsecAssertions\":[],\"aspaAssertions\":[{\"customerAsn\":64496,\"providerAsns\":[64499]}]}}";

// A file of version 2 with these elements, between the parts that don't change.
fn with(alloc: Global, filters: &[u8], assertions: &[u8]) -> Option<Result<Slurm, SlurmFault>> {
    let mut bytes = Vec::new(alloc);
    let parts: [&[u8]; 5] = [
        b"{\"locallyAddedAssertions\":{\"prefixAssertions\":[{\"asn\":1,\"prefix\":\"::/0\"}],\"bgpsecAssertions\":[null],\"aspaAssertions\":[",
        assertions,
        b"]},\"slurmVersion\":2,\"validationOutputFilters\":{\"prefixFilters\":[{\"asn\":1}],\"bgpsecFilters\":[[]],\"aspaFilters\":[",
        filters,
        b"]}}",
    ];
    for part in parts {
        if bytes.extend_from_slice(part).is_err() {
            return None;
        }
    }
    Some(read(alloc, &bytes))
}

/// Whether the file says this: the filters, and the row of 64496.
pub(crate) fn says(file: Result<Slurm, SlurmFault>, filters: &[u32], row: Option<&[u32]>) -> bool {
    let Ok(slurm) = file else {
        return false;
    };
    let providers = match slurm.assertions.row(64_496) {
        Some(providers) => Some(providers.as_slice()),
        None => None,
    };
    providers == row && slurm.filters.as_slice() == filters
}

// Version 1 has no attestations.
const VERSION_1: &[u8] =
    b"{\"slurmVersion\":1,\"validationOutputFilters\":{\"prefixFilters\":[],\"bgpsecFilters\":[]},\"locallyAddedAssertions\":{\"prefixAssertions\":[],\"bgpsecAssertions\":[]}}";

#[test]
fn reads_slurm_files(rt: HostRuntime) {
    assert!(rt; says(read(rt.alloc(), FILE), &[64_496], Some(&[64_499])));
    assert!(rt; says(read(rt.alloc(), VERSION_1), &[], None));
}

// Filters are put in order, and assertions of one customer are united; one may name no provider; the last of two members counts.
const ELEMENTS: [(&[u8], &[u8], &[u32], Option<&[u32]>); 4] = [
    (
        b"{\"customerAsn\":3},{\"customerAsn\":1,\"comment\":\"x\"},{\"customerAsn\":3}",
        b"",
        &[1, 3],
        None,
    ),
    (
        b"",
        b"{\"customerAsn\":64496,\"providerAsns\":[]}",
        &[],
        Some(&[]),
    ),
    (
        b"",
        b"{\"customerAsn\":64496,\"providerAsns\":[9,7]},{\"comment\":\"\",\"providerAsns\":[8,7,0],\"customerAsn\":64496}",
        &[],
        Some(&[0, 7, 8, 9]),
    ),
    (
        b"{\"customerAsn\":1.5,\"customerAsn\":4294967295}",
        b"",
        &[4_294_967_295],
        None,
    ),
];

#[test]
fn reads_elements(rt: HostRuntime) {
    for (filters, assertions, asns, row) in ELEMENTS {
        let file = with(rt.alloc(), filters, assertions);
        assert!(rt; file.is_some_and(|file| says(file, asns, row)));
    }
}

// A file of version 1 with these elements.
fn with_prefixes(
    alloc: Global,
    filters: &[u8],
    assertions: &[u8],
) -> Option<Result<Slurm, SlurmFault>> {
    let mut bytes = Vec::new(alloc);
    let parts: [&[u8]; 5] = [
        b"{\"slurmVersion\":1,\"validationOutputFilters\":{\"prefixFilters\":[",
        filters,
        b"],\"bgpsecFilters\":[1]},\"locallyAddedAssertions\":{\"bgpsecAssertions\":[],\"prefixAssertions\":[",
        assertions,
        b"]}}",
    ];
    for part in parts {
        if bytes.extend_from_slice(part).is_err() {
            return None;
        }
    }
    Some(read(alloc, &bytes))
}

// The payload of an IPv4 prefix, or of an IPv6 prefix.
fn vrp(addr: Addr, len: u8, max: u8, asn: u32) -> Option<Vrp> {
    Vrp::new(Prefix::new(addr, len)?, max, asn)
}

// How many prefix assertions a file has, and whether it asserts a payload.
fn asserts(file: Option<Result<Slurm, SlurmFault>>, wanted: Option<Vrp>) -> Option<(usize, bool)> {
    let slurm = file?.ok()?;
    let assertions = &slurm.prefix_assertions;
    Some((assertions.entries().count(), assertions.contains(&wanted?)))
}

// How many prefix filters a file has, and whether one hits a payload.
fn hits(file: Option<Result<Slurm, SlurmFault>>, wanted: Option<Vrp>) -> Option<(usize, bool)> {
    let slurm = file?.ok()?;
    let filters = &slurm.prefix_filters;
    Some((filters.iter().count(), filters.hit(&wanted?)))
}

const NET: Addr = Addr::V4(0xC633_6400);

const DOC: Addr = Addr::V6(0x2001_0DB8 << 96);

// Assertions, the maximum length and the AS of a payload of 198.51.100.0/24, and whether it is asserted.
const ASSERTIONS: [(&[u8], u8, u32, bool); 3] = [
    // Where no maximum is written it is the prefix's length.
    (
        b"{\"asn\":64500,\"prefix\":\"198.51.100.0/24\"}",
        24,
        64_500,
        true,
    ),
    (
        b"{\"asn\":64500,\"prefix\":\"198.51.100.0/24\"}",
        25,
        64_500,
        false,
    ),
    // What is escaped is read as what it stands for.
    (b"{\"asn\":1,\"prefix\":\"198.51.100.0\\/24\"}", 24, 1, true),
];

#[test]
fn reads_prefix_assertions(rt: HostRuntime) {
    for (assertions, max, asn, is_there) in ASSERTIONS {
        let file = with_prefixes(rt.alloc(), b"", assertions);
        assert_eq!(rt; asserts(file, vrp(NET, 24, max, asn)), Some((1, is_there)));
    }
}

// One payload in two spellings is one.
const TWICE: &[u8] =
    b"{\"comment\":\"\",\"maxPrefixLength\":128,\"prefix\":\"2001:DB8::/32\",\"asn\":0},{\"maxPrefixLength\":128,\"prefix\":\"2001:0db8:0:0:0:0:0:0/32\",\"asn\":0}";

#[test]
fn reads_one_payload_twice(rt: HostRuntime) {
    let file = with_prefixes(rt.alloc(), b"", TWICE);
    assert_eq!(rt; asserts(file, vrp(DOC, 32, 128, 0)), Some((1, true)));
}

// Filters, how many they are, the length and the AS of a payload of 198.51.100.0, and whether it is hit.
const FILTERS: [(&[u8], usize, u8, u32, bool); 6] = [
    (b"{\"asn\":64500}", 1, 24, 64_500, true),
    (b"{\"asn\":64500}", 1, 24, 64_501, false),
    (
        b"{\"prefix\":\"198.51.0.0/16\",\"comment\":\"x\"}",
        1,
        24,
        1,
        true,
    ),
    (
        b"{\"prefix\":\"198.51.0.0/16\",\"comment\":\"x\"}",
        1,
        8,
        1,
        false,
    ),
    (
        b"{\"asn\":1,\"prefix\":\"198.51.0.0/16\"},{\"asn\":3},{\"asn\":3}",
        3,
        24,
        2,
        false,
    ),
    (
        b"{\"asn\":1,\"prefix\":\"198.51.0.0/16\"},{\"asn\":3},{\"asn\":3}",
        3,
        24,
        1,
        true,
    ),
];

#[test]
fn reads_prefix_filters(rt: HostRuntime) {
    for (filters, number, len, asn, is_hit) in FILTERS {
        let file = with_prefixes(rt.alloc(), filters, b"");
        assert_eq!(rt; hits(file, vrp(NET, len, len, asn)), Some((number, is_hit)));
    }
}
