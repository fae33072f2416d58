//! Large files: a reader that finds no memory from some small size on keeps its contract, and only a test sees it.
use crate::slurm_files::says;
use aspa_payload::{Payload, read, read_many};
use av_base::NoMemory;
use der_reader::{put_value, take_value};
use path_model::AsList;
use std::alloc::Global;

// Customer 64496 with the provider 64497.
const A: &[u8] = b"\x30\x11\xA0\x03\x02\x01\x01\x02\x03\x00\xFB\xF0\x30\x05\x02\x03\x00\xFB\xF1";

// A front, a piece so many times, and an end.
fn repeated(
    alloc: Global,
    front: &[u8],
    piece: &[u8],
    times: usize,
    end: &[u8],
) -> Result<Vec<u8>, NoMemory> {
    let mut bytes = Vec::new(alloc);
    bytes.extend_from_slice(front)?;
    for _ in 0..times {
        bytes.extend_from_slice(piece)?;
    }
    bytes.extend_from_slice(end)?;
    Ok(bytes)
}

// The most bytes of a file.
const MOST: usize = 67_108_864;

// The providers of 64496 in a file of payloads, or `None` where it is refused or has no row.
fn row(alloc: Global, file: &[u8]) -> Option<AsList> {
    if file.len() > MOST {
        return None;
    }
    read_many(alloc, file).ok()?.row(64_496)?.copy().ok()
}

#[test]
fn reads_a_thousand_payloads(rt: HostRuntime) -> Result<(), NoMemory> {
    let file = repeated(rt.alloc(), b"", A, 1_000, b"")?;
    assert!(rt; row(rt.alloc(), &file).is_some_and(|row| row.as_slice() == [64_497].as_slice()));
    Ok(())
}

// Customer 64496 with the providers 1 to 300: 127 numbers in three bytes each, and 173 in four.
fn three_hundred(alloc: Global) -> Result<Vec<u8>, NoMemory> {
    let front =
        b"\x30\x82\x04\x3F\xA0\x03\x02\x01\x01\x02\x03\x00\xFB\xF0\x30\x82\x04\x31".as_slice();
    let mut bytes = Vec::from_slice(alloc, front)?;
    for low in 1..=127u8 {
        bytes.extend_from_slice(&[2, 1, low])?;
    }
    for low in 128..=255u8 {
        bytes.extend_from_slice(&[2, 2, 0, low])?;
    }
    for low in 0..=44u8 {
        bytes.extend_from_slice(&[2, 2, 1, low])?;
    }
    Ok(bytes)
}

// Whether the providers are 1 to 300.
fn are_numbered(providers: &[u32]) -> bool {
    for (before, provider) in providers.iter().enumerate() {
        if *provider as usize != before + 1 {
            return false;
        }
    }
    providers.len() == 300
}

fn written(alloc: Global, payload: &Payload) -> Result<Vec<u8>, NoMemory> {
    let mut out = Vec::new(alloc);
    payload.write(&mut out)?;
    Ok(out)
}

#[test]
fn reads_and_writes_three_hundred_providers(rt: HostRuntime) -> Result<(), NoMemory> {
    let bytes = three_hundred(rt.alloc())?;
    let Ok(payload) = read(rt.alloc(), &bytes) else {
        return Err(NoMemory);
    };
    assert!(rt; are_numbered(payload.providers().as_slice()));
    assert!(rt; written(rt.alloc(), &payload)?.as_slice() == bytes.as_slice());
    Ok(())
}

// Lengths that take one byte, two, three and four, and their fronts.
const LENGTHS: [(&[u8], usize); 4] = [
    (b"\x30\x7F", 127),
    (b"\x30\x81\x80", 128),
    (b"\x30\x82\xFF\xFF", 65_535),
    (b"\x30\x83\x01\x00\x00", 65_536),
];

// Whether a content of so many bytes stands behind this front, when it is put and when it is taken.
fn is_framed(alloc: Global, front: &[u8], length: usize) -> Result<bool, NoMemory> {
    let content = repeated(alloc, b"", b"\x07", length, b"")?;
    let bytes = repeated(alloc, front, b"\x07", length, b"")?;
    let mut out = Vec::new(alloc);
    put_value(&mut out, 0x30, &content)?;
    Ok(
        out.as_slice() == bytes.as_slice()
            && take_value(&bytes, 0x30) == Ok((content.as_slice(), b"".as_slice())),
    )
}

#[test]
fn takes_and_puts_long_contents(rt: HostRuntime) -> Result<(), NoMemory> {
    for (front, length) in LENGTHS {
        assert!(rt; is_framed(rt.alloc(), front, length)?);
    }
    Ok(())
}

// A file of version 2 with a thousand filters, and a thousand assertions of one customer.
fn thousands(alloc: Global) -> Result<Vec<u8>, NoMemory> {
    let filters = repeated(
        alloc,
        b"{\"slurmVersion\":2,\"validationOutputFilters\":{\"prefixFilters\":[],\"bgpsecFilters\":[],\"aspaFilters\":[",
        b"{\"customerAsn\":7},",
        999,
        b"{\"customerAsn\":8}]},",
    )?;
    let assertions = repeated(
        alloc,
        b"\"locallyAddedAssertions\":{\"prefixAssertions\":[],\"bgpsecAssertions\":[],\"aspaAssertions\":[",
        b"{\"customerAsn\":64496,\"providerAsns\":[64497]},",
        999,
        b"{\"customerAsn\":64496,\"providerAsns\":[64498]}]}}",
    )?;
    repeated(alloc, &filters, b"", 0, &assertions)
}

#[test]
fn reads_a_thousand_filters_and_assertions(rt: HostRuntime) -> Result<(), NoMemory> {
    let file = thousands(rt.alloc())?;
    assert!(rt;
        says(
            slurm_rules::read(rt.alloc(), &file),
            &[7, 8],
            Some(&[64_497, 64_498])
        )
    );
    Ok(())
}
