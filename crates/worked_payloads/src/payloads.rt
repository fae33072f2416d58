//! Payloads and files of them: vectors worked out by hand.
use aspa_payload::{FileFault, Payload, read, read_many};
use av_base::NoMemory;
use der_reader::{put_u32, put_value, take_u32};
use path_model::Rows;
use std::alloc::Global;

// Customer 64496 with the provider 64497, and with 64498.
const A: &[u8] = b"\x30\x11\xA0\x03\x02\x01\x01\x02\x03\x00\xFB\xF0\x30\x05\x02\x03\x00\xFB\xF1";

const B: &[u8] = b"\x30\x11\xA0\x03\x02\x01\x01\x02\x03\x00\xFB\xF0\x30\x05\x02\x03\x00\xFB\xF2";

const A_AND_B: &[u8] =
    b"\x30\x11\xA0\x03\x02\x01\x01\x02\x03\x00\xFB\xF0\x30\x05\x02\x03\x00\xFB\xF1\x30\x11\xA0\x03\x02\x01\x01\x02\x03\x00\xFB\xF0\x30\x05\x02\x03\x00\xFB\xF2";

const NUMBERS: [(&[u8], u32); 7] = [
    (b"\x02\x01\x00", 0),
    (b"\x02\x01\x7F", 127),
    (b"\x02\x02\x00\x80", 128),
    (b"\x02\x03\x00\xFB\xF0", 64_496),
    (b"\x02\x03\x7F\xFF\xFF", 8_388_607),
    (b"\x02\x04\x7F\xFF\xFF\xFF", 2_147_483_647),
    (b"\x02\x05\x00\xFF\xFF\xFF\xFF", 4_294_967_295),
];

#[test]
fn takes_numbers(rt: HostRuntime) {
    for (bytes, number) in NUMBERS {
        assert_eq!(rt; take_u32(bytes), Ok((number, b"".as_slice())));
    }
}

#[test]
fn puts_values(rt: HostRuntime) -> Result<(), NoMemory> {
    let mut out = Vec::new(rt.alloc());
    put_u32(&mut out, 200)?;
    put_value(&mut out, 0x30, b"\x07")?;
    assert_eq!(rt; out.as_slice(), b"\x02\x02\x00\xC8\x30\x01\x07".as_slice());
    Ok(())
}

// Whether a payload is written so.
fn is_written(alloc: Global, payload: &Payload, bytes: &[u8]) -> Result<bool, NoMemory> {
    let mut out = Vec::new(alloc);
    payload.write(&mut out)?;
    Ok(out.as_slice() == bytes)
}

#[test]
fn reads_and_writes_a_payload(rt: HostRuntime) -> Result<(), NoMemory> {
    let Ok(payload) = read(rt.alloc(), A) else {
        return Err(NoMemory);
    };
    assert_eq!(rt; payload.customer(), 64_496);
    assert_eq!(rt; payload.providers().as_slice(), [64_497].as_slice());
    assert!(rt; is_written(rt.alloc(), &payload, A)?);
    Ok(())
}

#[test]
fn writes_a_new_payload(rt: HostRuntime) -> Result<(), NoMemory> {
    let Ok(payload) = Payload::new(rt.alloc(), 64_496, &[64_498]) else {
        return Err(NoMemory);
    };
    assert!(rt; is_written(rt.alloc(), &payload, B)?);
    Ok(())
}

// Whether a file has this row of 64496 alone, or none.
fn is_file(file: Result<Rows, FileFault>, wanted: Option<&[u32]>) -> bool {
    match file {
        Ok(rows) => match rows.row(64_496) {
            Some(row) => Some(row.as_slice()) == wanted,
            None => wanted.is_none(),
        },
        Err(_) => false,
    }
}

#[test]
fn reads_files_of_payloads(rt: HostRuntime) {
    let alloc = rt.alloc();
    assert!(rt; is_file(read_many(alloc, b""), None));
    assert!(rt; is_file(read_many(alloc, A), Some(&[64_497])));
    assert!(rt; is_file(read_many(alloc, A_AND_B), Some(&[64_497, 64_498])));
}
