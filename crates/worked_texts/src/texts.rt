//! Numbers, roles, addresses, prefixes, peers, names and words as text, and the lines that the program reports with.
use av_base::NoMemory;
use av_text::{
    next_line, put_addr, put_peer, put_prefix, put_u64, put_verdict, read_addr, read_name,
    read_prefix, read_role, read_u32, words,
};
use path_model::{Addr, Key, Peer, Prefix, Role, Verdict, Witness};
use report_text::{
    Cause, Place, Summary, put_change, put_changed, put_refusal, put_row, put_summary, put_why,
};
use std::test::Fail;

#[test]
fn reads_numbers(rt: HostRuntime) {
    let table: [(&[u8], Option<u32>); 10] = [
        (b"", None),
        (b"0", Some(0)),
        (b"00", None),
        (b"01", None),
        (b"+1", None),
        (b"4294967295", Some(4_294_967_295)),
        (b"4294967296", None),
        (b"42949672950", None),
        (b"1 ", None),
        (b"x", None),
    ];
    for (text, number) in &table {
        assert_eq!(rt; read_u32(text), *number);
    }
}

#[test]
fn cuts_words(rt: HostRuntime) {
    assert_eq!(rt; words(b"").count(), 0);
    assert_eq!(rt; words(b"  ").count(), 0);
    let mut left = words(b" a\tbc d ");
    assert_eq!(rt; left.count(), 3);
    assert_eq!(rt; left.next(), Some(b"a".as_slice()));
    assert_eq!(rt; left.next(), Some(b"bc".as_slice()));
    assert_eq!(rt; left.next(), Some(b"d".as_slice()));
    assert_eq!(rt; left.next(), None);
}

#[test]
fn puts_numbers_and_verdicts(rt: HostRuntime) -> Result<(), Fail> {
    let mut out = Vec::new(rt.alloc());
    assert!(rt; put_u64(&mut out, 0).is_ok());
    assert!(rt; put_verdict(&mut out, Verdict::Valid).is_ok());
    assert!(rt; put_u64(&mut out, u64::MAX).is_ok());
    assert!(rt; put_verdict(&mut out, Verdict::Unknown).is_ok());
    assert!(rt; put_verdict(&mut out, Verdict::Invalid).is_ok());
    assert_eq!(rt;
        out.as_slice(),
        b"0valid18446744073709551615unknowninvalid".as_slice()
    );
    Ok(())
}

#[test]
fn reads_roles(rt: HostRuntime) {
    let table: [(&[u8], Option<Role>); 10] = [
        (b"provider", Some(Role::Provider)),
        (b"customer", Some(Role::Customer)),
        (b"peer", Some(Role::Peer)),
        (b"rs", Some(Role::Rs)),
        (b"rs-client", Some(Role::RsClient)),
        (b"mutual", Some(Role::Mutual)),
        (b"Peer", None),
        (b"", None),
        (b"rs-", None),
        (b"customers", None),
    ];
    for (text, role) in &table {
        assert_eq!(rt; read_role(text), *role);
    }
}

const LOOPBACK: u128 = 1;

const DOCUMENTED: u128 = 0x2001_0db8_0000_0000_0000_0000_0000_0000;

#[test]
fn reads_addresses(rt: HostRuntime) {
    let table: [(&[u8], Option<Addr>); 22] = [
        (b"0.0.0.0", Some(Addr::V4(0))),
        (b"192.0.2.1", Some(Addr::V4(0xc000_0201))),
        (b"255.255.255.255", Some(Addr::V4(u32::MAX))),
        (b"256.0.0.0", None),
        (b"192.0.2.01", None),
        (b"192.0.2", None),
        (b"192.0.2.", None),
        (b"192.0.2.1.", None),
        (b"192.0..1", None),
        (b" 192.0.2.1", None),
        (
            b"0000:0000:0000:0000:0000:0000:0000:0001",
            Some(Addr::V6(LOOPBACK)),
        ),
        (
            b"2001:0db8:0000:0000:0000:0000:0000:0000",
            Some(Addr::V6(DOCUMENTED)),
        ),
        (
            b"ffff:ffff:ffff:ffff:ffff:ffff:ffff:ffff",
            Some(Addr::V6(u128::MAX)),
        ),
        // No short forms, no capitals, no IPv4 part.
        (b"::1", None),
        (b"2001:db8:0000:0000:0000:0000:0000:0000", None),
        (b"2001:0DB8:0000:0000:0000:0000:0000:0000", None),
        (b"2001:0db8:0000:0000:0000:0000:0000", None),
        (b"2001:0db8:0000:0000:0000:0000:0000:0000:0000", None),
        (b"2001:0dg8:0000:0000:0000:0000:0000:0000", None),
        (b"0000:0000:0000:0000:0000:ffff:192.0.2.1", None),
        (b"1", None),
        (b"", None),
    ];
    for (text, addr) in &table {
        assert_eq!(rt; read_addr(text), *addr);
    }
}

#[test]
fn reads_prefixes(rt: HostRuntime) {
    let table: [(&[u8], Option<Prefix>); 16] = [
        (b"0.0.0.0/0", Prefix::new(Addr::V4(0), 0)),
        (b"192.0.2.0/24", Prefix::new(Addr::V4(0xc000_0200), 24)),
        (b"192.0.2.1/32", Prefix::new(Addr::V4(0xc000_0201), 32)),
        (b"192.0.2.1/24", None),
        (b"0.0.0.1/0", None),
        (b"192.0.2.0/33", None),
        (b"192.0.2.0/024", None),
        (b"192.0.2.0/256", None),
        (b"192.0.2.0/", None),
        (b"192.0.2.0", None),
        (b"/24", None),
        (
            b"2001:0db8:0000:0000:0000:0000:0000:0000/32",
            Prefix::new(Addr::V6(DOCUMENTED), 32),
        ),
        (
            b"0000:0000:0000:0000:0000:0000:0000:0001/128",
            Prefix::new(Addr::V6(LOOPBACK), 128),
        ),
        (b"0000:0000:0000:0000:0000:0000:0000:0001/127", None),
        (b"0000:0000:0000:0000:0000:0000:0000:0000/129", None),
        (b"2001:0db8::/32", None),
    ];
    for (text, prefix) in &table {
        assert_eq!(rt; read_prefix(text), *prefix);
    }
}

#[test]
fn puts_addresses_prefixes_and_peers(rt: HostRuntime) -> Result<(), NoMemory> {
    let mut out = Vec::new(rt.alloc());
    put_addr(&mut out, &Addr::V4(0xc000_0201))?;
    out.push(b'\n')?;
    put_addr(&mut out, &Addr::V6(DOCUMENTED + 0xabc))?;
    out.push(b'\n')?;
    let peer = Peer {
        addr: Addr::V6(LOOPBACK),
        asn: u32::MAX,
    };
    put_peer(&mut out, &peer)?;
    for (addr, len) in [(Addr::V4(0x0a0b_0c0d), 8), (Addr::V6(u128::MAX), 126)] {
        out.push(b'\n')?;
        if let Some(prefix) = Prefix::new(addr, len) {
            put_prefix(&mut out, &prefix)?;
        }
    }
    assert_eq!(rt;
        out.as_slice(),
        b"192.0.2.1\n2001:0db8:0000:0000:0000:0000:0000:0abc\n0000:0000:0000:0000:0000:0000:0000:0001 4294967295\n10.0.0.0/8\nffff:ffff:ffff:ffff:ffff:ffff:ffff:fffc/126".as_slice()
    );
    Ok(())
}

#[test]
fn reads_names(rt: HostRuntime) -> Result<(), NoMemory> {
    let alloc = rt.alloc();
    for text in [b"a".as_slice(), b"rrc00", b"A.b_c-9", &[b'x'; 64]] {
        let name = read_name(alloc, text)?;
        assert!(rt; matches!(&name, Some(name) if name.text().as_bytes() == text));
    }
    for text in [
        b"".as_slice(),
        b"a b",
        b"a/b",
        b"\xc3\xa9",
        b"a\n",
        &[b'x'; 65],
    ] {
        assert!(rt; read_name(alloc, text)?.is_none());
    }
    Ok(())
}

#[test]
fn cuts_lines(rt: HostRuntime) {
    let table: [(&[u8], bool, Option<(&[u8], &[u8])>); 8] = [
        (b"", true, None),
        (b"ab\ncd", true, Some((b"ab", b"cd"))),
        (b"ab\r\n", true, Some((b"ab", b""))),
        (b"ab\r\r\n", true, Some((b"ab\r", b""))),
        (b"\n\n", true, Some((b"", b"\n"))),
        (b"ab\r", true, Some((b"ab\r", b""))),
        (b"ab", false, None),
        (b"a\nb", false, Some((b"a", b"b"))),
    ];
    for (text, whole, cut) in &table {
        assert_eq!(rt; next_line(text, *whole), *cut);
    }
}

#[test]
fn puts_refusals(rt: HostRuntime) -> Result<(), NoMemory> {
    let mut out = Vec::new(rt.alloc());
    let table = [
        (1, Place::Line, Cause::Number),
        (2, unit("slurm", 1), Cause::Json),
        (u64::MAX, unit("rrc-00.a_b", 12), Cause::CutShort),
        (2, unit("b", 1), Cause::BmpVersion),
        (3, unit("b", 1), Cause::BmpLength),
        (4, unit("b", 1), Cause::BmpBody),
    ];
    for (line, place, cause) in table {
        put_refusal(&mut out, line, place, cause)?;
    }
    assert_eq!(rt;
        out.as_slice(),
        b"! line 1 cause 34 Number
! line 2 slurm unit 1 cause 11 Json
! line 18446744073709551615 rrc-00.a_b unit 12 cause 27 CutShort
! line 2 b unit 1 cause 45 BmpVersion
! line 3 b unit 1 cause 46 BmpLength
! line 4 b unit 1 cause 47 BmpBody
"
            .as_slice()
    );
    Ok(())
}

fn unit(name: &'static str, unit: u64) -> Place<'static> {
    Place::Unit { name, unit }
}

#[test]
fn puts_rows(rt: HostRuntime) -> Result<(), NoMemory> {
    let mut out = Vec::new(rt.alloc());
    let peer = Peer {
        addr: Addr::V4(0xc000_0201),
        asn: 64_501,
    };
    let table = [
        (Addr::V4(0xc633_6400), 24, None),
        (Addr::V4(0xc633_6400), 24, Some(0)),
        (Addr::V6(DOCUMENTED), 32, None),
        (Addr::V6(DOCUMENTED), 32, Some(u32::MAX)),
    ];
    for (addr, len, path) in table {
        if let Some(prefix) = Prefix::new(addr, len) {
            put_row(&mut out, &Key { peer, prefix, path }, Verdict::Valid)?;
        }
    }
    assert_eq!(rt;
        out.as_slice(),
        b"192.0.2.1 64501 198.51.100.0/24 valid
192.0.2.1 64501 198.51.100.0/24 path 0 valid
192.0.2.1 64501 2001:0db8:0000:0000:0000:0000:0000:0000/32 valid
192.0.2.1 64501 2001:0db8:0000:0000:0000:0000:0000:0000/32 path 4294967295 valid
"
            .as_slice()
    );
    Ok(())
}

#[test]
fn puts_changes(rt: HostRuntime) -> Result<(), NoMemory> {
    let mut out = Vec::new(rt.alloc());
    let peer = Peer {
        addr: Addr::V4(0xc000_0201),
        asn: 64_501,
    };
    if let Some(prefix) = Prefix::new(Addr::V4(0xc633_6400), 24) {
        let path = None;
        let key = Key { peer, prefix, path };
        put_change(&mut out, &key, None, Some(Verdict::Valid))?;
        put_change(&mut out, &key, Some(Verdict::Valid), Some(Verdict::Unknown))?;
        put_change(&mut out, &key, Some(Verdict::Invalid), None)?;
        let path = Some(7);
        let other = Key { peer, prefix, path };
        put_change(&mut out, &other, None, Some(Verdict::Unknown))?;
    }
    put_changed(&mut out, 4)?;
    assert_eq!(rt;
        out.as_slice(),
        b"192.0.2.1 64501 198.51.100.0/24 none valid
192.0.2.1 64501 198.51.100.0/24 valid unknown
192.0.2.1 64501 198.51.100.0/24 invalid none
192.0.2.1 64501 198.51.100.0/24 path 7 none unknown
changed 4
"
            .as_slice()
    );
    Ok(())
}

#[test]
fn puts_summaries(rt: HostRuntime) -> Result<(), NoMemory> {
    let mut out = Vec::new(rt.alloc());
    let two = Summary {
        routes: 2,
        valid: 2,
        unknown: 0,
        invalid: 0,
        customers: 0,
        passed: 0,
        refused: 0,
    };
    let seven = Summary {
        routes: 12,
        valid: 5,
        unknown: 4,
        invalid: 3,
        customers: 6,
        passed: 7,
        refused: u64::MAX,
    };
    put_summary(&mut out, two)?;
    put_summary(&mut out, seven)?;
    assert_eq!(rt;
        out.as_slice(),
        b"summary routes 2 valid 2 unknown 0 invalid 0 customers 0 passed 0 refused 0
summary routes 12 valid 5 unknown 4 invalid 3 customers 6 passed 7 refused 18446744073709551615
"
            .as_slice()
    );
    Ok(())
}

#[test]
fn puts_witnesses(rt: HostRuntime) -> Result<(), NoMemory> {
    let mut out = Vec::new(rt.alloc());
    let climb = Witness::Valid {
        climbs: 1,
        free: 0,
        descents: 0,
    };
    let upstream = Witness::Unsettled {
        first: 1,
        last: None,
        climbs: 1,
        free: 0,
        descents: 0,
    };
    let downstream = Witness::Unsettled {
        first: 2,
        last: Some(3),
        climbs: 4,
        free: 1,
        descents: 5,
    };
    let table = [
        (Verdict::Valid, climb),
        (Verdict::Unknown, upstream),
        (Verdict::Unknown, downstream),
        (Verdict::Invalid, blocked(None)),
        (Verdict::Invalid, blocked(Some(2))),
        (Verdict::Invalid, Witness::Empty),
        (Verdict::Invalid, Witness::Set),
        (Verdict::Invalid, Witness::Neighbour),
    ];
    for (verdict, witness) in &table {
        put_why(&mut out, *verdict, *witness)?;
    }
    assert_eq!(rt;
        out.as_slice(),
        b"valid climbs 1 free 0 descents 0
unknown unsettled 1 climbs 1 free 0 descents 0
unknown unsettled 2 3 climbs 4 free 1 descents 5
invalid blocked 1
invalid blocked 1 2
invalid empty
invalid set
invalid neighbour
"
            .as_slice()
    );
    Ok(())
}

fn blocked(last: Option<u32>) -> Witness {
    Witness::Blocked { first: 1, last }
}
