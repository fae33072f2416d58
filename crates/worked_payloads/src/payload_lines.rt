//! Files of base64 lines: payloads alone, and with the moments of their ends; and large ones.
use aspa_payload::{FileFault, read_lines};
use attestations::{Attested, Term, Terms};
use av_base::NoMemory;
use std::alloc::Global;

// What is attested of 64496: some providers, and until when.
pub(crate) type Wanted = (&'static [u32], Option<u32>);

fn are_terms(terms: &[Term], wanted: &[Wanted]) -> bool {
    for (term, (providers, until)) in terms.iter().zip(wanted.iter()) {
        if term.providers.as_slice() != *providers || term.until != *until {
            return false;
        }
    }
    terms.len() == wanted.len()
}

/// Whether these are the attestations that are lent.
pub(crate) fn are_attested(lent: Option<Attested<'_>>, wanted: &[Wanted]) -> bool {
    match lent {
        None => wanted.is_empty(),
        Some(Attested::Row(row)) => match wanted {
            [(providers, None)] => row.as_slice() == *providers,
            _ => false,
        },
        Some(Attested::Terms(terms)) => are_terms(terms, wanted),
    }
}

// Whether a file has these attestations of 64496.
fn attests(file: Result<Terms, FileFault>, wanted: &[Wanted]) -> bool {
    match file {
        Ok(terms) => are_attested(terms.of_customer(64_496), wanted),
        Err(_) => false,
    }
}

const FILES: [(&[u8], &[Wanted]); 9] = [
    (b"", &[]),
    (b"\n\r\n", &[]),
    (b"MBGgAwIBAQIDAPvwMAUCAwD78Q==", &[(&[64_497], None)]),
    (
        b"MBGgAwIBAQIDAPvwMAUCAwD78Q==\r\n\nMBGgAwIBAQIDAPvwMAUCAwD78g==\n",
        &[(&[64_497], None), (&[64_498], None)],
    ),
    (b"MBGgAwIBAQIDAPvwMAUCAwD78Q== 0", &[(&[64_497], Some(0))]),
    (
        b"MBGgAwIBAQIDAPvwMAUCAwD78Q== 4294967295\r\n",
        &[(&[64_497], Some(4_294_967_295))],
    ),
    // Those that never end stand first, and then by their ends.
    (
        b"MBGgAwIBAQIDAPvwMAUCAwD78Q== 100\nMBGgAwIBAQIDAPvwMAUCAwD78g==",
        &[(&[64_498], None), (&[64_497], Some(100))],
    ),
    // The same providers up to two ends, and one of these twice.
    (
        b"MBGgAwIBAQIDAPvwMAUCAwD78Q== 9\nMBGgAwIBAQIDAPvwMAUCAwD78Q== 8\nMBGgAwIBAQIDAPvwMAUCAwD78Q== 9",
        &[(&[64_497], Some(8)), (&[64_497], Some(9))],
    ),
    // Of another customer.
    (b"MBagAwIBAQIDAPvyMAoCAwD78QIDAQAA 100", &[]),
];

#[test]
fn reads_files_of_lines(rt: HostRuntime) {
    for (bytes, wanted) in FILES {
        assert!(rt; attests(read_lines(rt.alloc(), bytes), wanted));
    }
}

// Puts a moment from 1000 on.
fn put_moment(file: &mut Vec<u8>, place: u32) -> Result<(), NoMemory> {
    file.extend_from_slice(b" 1")?;
    for digit in [place / 100 % 10, place / 10 % 10, place % 10] {
        file.push(b'0'.wrapping_add(digit as u8))?;
    }
    Ok(())
}

// Lines of one payload of 64496 that ends at the moments 1000 to 1999, or that never ends.
fn thousand_lines(alloc: Global, ends: bool) -> Result<Vec<u8>, NoMemory> {
    let mut file = Vec::new(alloc);
    for place in 0..1_000u32 {
        file.extend_from_slice(b"MBGgAwIBAQIDAPvwMAUCAwD78Q==")?;
        if ends {
            put_moment(&mut file, place)?;
        }
        file.push(b'\n')?;
    }
    Ok(file)
}

// How many attestations a file has of 64496.
fn count(file: &Result<Terms, FileFault>) -> usize {
    match file {
        Err(_) => 0,
        Ok(terms) => match terms.of_customer(64_496) {
            None => 0,
            Some(Attested::Row(_)) => 1,
            Some(Attested::Terms(terms)) => terms.len(),
        },
    }
}

// The most bytes of a file.
const MOST: usize = 67_108_864;

// How many attestations the thousand lines have.
fn count_lines(alloc: Global, ends: bool) -> Result<Option<usize>, NoMemory> {
    let file = thousand_lines(alloc, ends)?;
    if file.len() > MOST {
        return Ok(None);
    }
    Ok(Some(count(&read_lines(alloc, &file))))
}

#[test]
fn reads_a_thousand_lines(rt: HostRuntime) -> Result<(), NoMemory> {
    assert_eq!(rt; count_lines(rt.alloc(), false)?, Some(1));
    assert_eq!(rt; count_lines(rt.alloc(), true)?, Some(1_000));
    Ok(())
}
