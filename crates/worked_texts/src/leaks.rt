//! Lines of what Only-to-Customer shows of routes (RFC 9234, section 5).
use Leak::{Clean, Customer, Malformed, RsClient};
use av_base::NoMemory;
use path_model::{Addr, Key, Leak, Peer, Prefix};
use report_text::put_leak;

// Appends the line of a leak; there is none where the route is clean.
fn put(out: &mut Vec<u8>, key: &Key, leak: Leak) -> Result<(), NoMemory> {
    match leak {
        Clean => Ok(()),
        Customer(_) | RsClient(_) | Leak::Peer(_) | Malformed => put_leak(out, key, leak),
    }
}

#[test]
fn puts_each_rule(rt: HostRuntime) -> Result<(), NoMemory> {
    let mut out = Vec::new(rt.alloc());
    let peer = Peer {
        addr: Addr::V4(0xc000_0201),
        asn: 64_501,
    };
    let path = None;
    if let Some(prefix) = Prefix::new(Addr::V4(0xc633_6400), 24) {
        let key = Key { peer, prefix, path };
        for asn in [0, 64_500, 4_294_967_295] {
            put(&mut out, &key, Customer(asn))?;
            put(&mut out, &key, RsClient(asn))?;
            put(&mut out, &key, Leak::Peer(asn))?;
        }
        put(&mut out, &key, Malformed)?;
    }
    assert_eq!(rt;
        out.as_slice(),
        b"192.0.2.1 64501 198.51.100.0/24 customer 0
192.0.2.1 64501 198.51.100.0/24 rs-client 0
192.0.2.1 64501 198.51.100.0/24 peer 0
192.0.2.1 64501 198.51.100.0/24 customer 64500
192.0.2.1 64501 198.51.100.0/24 rs-client 64500
192.0.2.1 64501 198.51.100.0/24 peer 64500
192.0.2.1 64501 198.51.100.0/24 customer 4294967295
192.0.2.1 64501 198.51.100.0/24 rs-client 4294967295
192.0.2.1 64501 198.51.100.0/24 peer 4294967295
192.0.2.1 64501 198.51.100.0/24 malformed
"
            .as_slice()
    );
    Ok(())
}

#[test]
fn puts_leaks_of_other_keys(rt: HostRuntime) -> Result<(), NoMemory> {
    let mut out = Vec::new(rt.alloc());
    let peer = Peer {
        addr: Addr::V4(0xc000_0201),
        asn: 64_501,
    };
    let six = Addr::V6(0x2001_0db8_0000_0000_0000_0000_0000_0000);
    let table = [
        (Addr::V4(0xc633_6400), 24, Some(0), Customer(64_500)),
        (Addr::V4(0xc633_6400), 24, Some(7), Malformed),
        (six, 32, None, RsClient(64_500)),
        (six, 32, Some(4_294_967_295), Leak::Peer(64_500)),
    ];
    for (addr, len, path, leak) in table {
        if let Some(prefix) = Prefix::new(addr, len) {
            put(&mut out, &Key { peer, prefix, path }, leak)?;
        }
    }
    assert_eq!(rt;
        out.as_slice(),
        b"192.0.2.1 64501 198.51.100.0/24 path 0 customer 64500
192.0.2.1 64501 198.51.100.0/24 path 7 malformed
192.0.2.1 64501 2001:0db8:0000:0000:0000:0000:0000:0000/32 rs-client 64500
192.0.2.1 64501 2001:0db8:0000:0000:0000:0000:0000:0000/32 path 4294967295 peer 64500
"
            .as_slice()
    );
    Ok(())
}

// 27 bytes with the line feed.
#[test]
fn puts_the_shortest_leak(rt: HostRuntime) -> Result<(), NoMemory> {
    let mut out = Vec::new(rt.alloc());
    let addr = Addr::V4(0);
    let peer = Peer { addr, asn: 0 };
    let path = None;
    if let Some(prefix) = Prefix::new(addr, 0) {
        put(&mut out, &Key { peer, prefix, path }, Leak::Peer(0))?;
    }
    assert_eq!(rt; out.len(), 27);
    assert_eq!(rt; out.as_slice(), b"0.0.0.0 0 0.0.0.0/0 peer 0\n".as_slice());
    Ok(())
}

// 132 bytes with the line feed.
#[test]
fn puts_the_longest_leak(rt: HostRuntime) -> Result<(), NoMemory> {
    let mut out = Vec::new(rt.alloc());
    let addr = Addr::V6(u128::MAX);
    let asn = u32::MAX;
    let peer = Peer { addr, asn };
    let path = Some(asn);
    if let Some(prefix) = Prefix::new(addr, 128) {
        put(&mut out, &Key { peer, prefix, path }, RsClient(asn))?;
    }
    assert_eq!(rt; out.len(), 132);
    assert_eq!(rt;
        out.as_slice(),
        b"ffff:ffff:ffff:ffff:ffff:ffff:ffff:ffff 4294967295 ffff:ffff:ffff:ffff:ffff:ffff:ffff:ffff/128 path 4294967295 rs-client 4294967295\n".as_slice()
    );
    Ok(())
}
