//! A validator's files, in the layouts of `rpki-client -j` and of Routinator's `--format json`: what good ones say.
use crate::payload_lines::{Wanted, are_attested};
use origin_model::{Vrp, VrpSet};
use path_model::{Addr, Prefix};
use std::alloc::Global;
use validated::{Validated, ValidatedFault, read};

const RPKI_CLIENT: &[u8] =
    b"{\"metadata\":{\"buildmachine\":\"localhost\",\"roas\":1,\"aspas\":2},\"roas\":[{\"asn\":64496,\"prefix\":\"192.0.2.0/24\",\"maxLength\":24,\"ta\":\"ripe\",\"expires\":1700000000}],\"bgpsec_keys\":[],\"aspas\":[{\"customer_asid\":64496,\"expires\":1700000000,\"providers\":[64497,64498]},{\"customer_asid\":64496,\"expires\":1600000000,\"providers\":[64499]}]}";

const ROUTINATOR: &[u8] =
    b"{\"metadata\":{\"generated\":1,\"generatedTime\":\"1970-01-01T00:00:01Z\"},\"roas\":[{\"asn\":\"AS64496\",\"prefix\":\"192.0.2.0/24\",\"maxLength\":24,\"source\":[{\"type\":\"roa\",\"uri\":\"rsync://localhost/roa\",\"validity\":{\"notBefore\":\"\",\"notAfter\":\"\"}}]}],\"routerKeys\":[],\"aspas\":[{\"customer\":\"AS64496\",\"providers\":[\"AS64498\",\"AS64497\"],\"source\":[{\"type\":\"aspa\"}]}]}";

// Whether the file says this of 64496.
fn attests(file: Result<Validated, ValidatedFault>, wanted: &[Wanted]) -> bool {
    match file {
        Ok(validated) => are_attested(validated.attestations.of_customer(64_496), wanted),
        Err(_) => false,
    }
}

// The records of a file that has an array of them.
fn records_of(file: Result<Validated, ValidatedFault>) -> Option<VrpSet> {
    file.ok()?.payloads
}

const NET: Addr = Addr::V4(0xC000_0200);

// Whether a file has one record, which is this of 192.0.2.0/24.
fn has_record(file: Result<Validated, ValidatedFault>, max: u8, asn: u32) -> Option<bool> {
    let records = records_of(file)?;
    let vrp = Vrp::new(Prefix::new(NET, 24)?, max, asn)?;
    Some(records.contains(&vrp) && records.len() == 1)
}

// A file with these elements of `aspas` and of `roas`.
fn with(alloc: Global, aspas: &[u8], roas: &[u8]) -> Option<Result<Validated, ValidatedFault>> {
    let mut bytes = Vec::new(alloc);
    let parts: [&[u8]; 5] = [
        b"{\"aspas\":[",
        aspas,
        b"],\"x\":[[]],\"roas\":[",
        roas,
        b"]}",
    ];
    for part in parts {
        if bytes.extend_from_slice(part).is_err() {
            return None;
        }
    }
    Some(read(alloc, &bytes))
}

#[test]
fn reads_both_layouts(rt: HostRuntime) {
    let alloc = rt.alloc();
    assert!(rt; attests(read(alloc, RPKI_CLIENT), &TWO_TERMS));
    assert!(rt; attests(read(alloc, ROUTINATOR), &[(&[64_497, 64_498], None)]));
    assert_eq!(rt;
        has_record(read(alloc, RPKI_CLIENT), 24, 64_496),
        Some(true)
    );
    assert_eq!(rt; has_record(read(alloc, ROUTINATOR), 24, 64_496), Some(true));
}

const TWO_TERMS: [Wanted; 2] = [
    (&[64_499], Some(1_600_000_000)),
    (&[64_497, 64_498], Some(1_700_000_000)),
];

// Without an array of records none are told, which an empty one is not.
#[test]
fn tells_no_records_and_none(rt: HostRuntime) {
    assert!(rt; records_of(read(rt.alloc(), b"{\"aspas\":[]}")).is_none());
    assert!(rt; records_of(read(rt.alloc(), b"{\"roas\":[],\"aspas\":[]}")).is_some());
}

// Whether a file with these elements of `aspas` says this of 64496.
fn attests_with(alloc: Global, aspas: &[u8], wanted: &[Wanted]) -> bool {
    match with(alloc, aspas, b"") {
        None => false,
        Some(file) => attests(file, wanted),
    }
}

const ATTESTATIONS: [(&[u8], &[Wanted]); 7] = [
    (b"", &[]),
    // `customer_asid` counts where both are there, whatever the other is; of members of one name the last counts.
    (
        b"{\"customer\":7,\"customer_asid\":64496,\"providers\":[1]},{\"customer_asid\":\"AS64496\",\"customer\":null,\"providers\":[2]}",
        &[(&[1], None), (&[2], None)],
    ),
    (
        b"{\"customer\":true,\"customer\":64496,\"providers\":1,\"providers\":[9],\"expires\":8,\"expires\":4294967295}",
        &[(&[9], Some(4_294_967_295))],
    ),
    (
        b"{\"customer\":64496,\"customer_asid\":7,\"providers\":[1]}",
        &[],
    ),
    // Providers come in any order, with repeats, in both forms, or not at all.
    (
        b"{\"customer\":64496,\"providers\":[\"AS4294967295\",3,\"AS0\",3]}",
        &[(&[0, 3, 4_294_967_295], None)],
    ),
    (
        b"{\"customer\":64496,\"providers\":[],\"expires\":0}",
        &[(&[], Some(0))],
    ),
    // One attestation twice is one.
    (
        b"{\"customer\":64496,\"providers\":[1],\"expires\":5},{\"customer\":\"AS64496\",\"providers\":[1,1],\"expires\":5}",
        &[(&[1], Some(5))],
    ),
];

#[test]
fn reads_attestations(rt: HostRuntime) {
    for (aspas, wanted) in ATTESTATIONS {
        assert!(rt; attests_with(rt.alloc(), aspas, wanted));
    }
}

const RECORDS: [(&[u8], u8, u32); 3] = [
    (b"{\"asn\":0,\"prefix\":\"192.0.2.0/24\"}", 24, 0),
    (
        b"{\"maxLength\":32,\"prefix\":\"192.0.2.0/24\",\"asn\":\"AS5\",\"expires\":1,\"ta\":[]}",
        32,
        5,
    ),
    // Two ends of one record make no difference.
    (
        b"{\"asn\":5,\"prefix\":\"192.0.2.0/24\",\"expires\":1},{\"asn\":\"AS5\",\"prefix\":\"192.0.2.0/24\",\"expires\":2}",
        24,
        5,
    ),
];

#[test]
fn reads_records(rt: HostRuntime) {
    for (roas, max, asn) in RECORDS {
        let file = with(rt.alloc(), b"", roas);
        assert_eq!(rt;
            file.and_then(|file| has_record(file, max, asn)),
            Some(true)
        );
    }
}
