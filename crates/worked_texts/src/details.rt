//! Details of routes, valleys of paths, peers and sayings, as they are written.
use av_base::NoMemory;
use path_model::{Addr, Key, Peer, Prefix, Role, Trail, Verdict, Witness};
use report_text::{
    PeerLines, PeerSummary, Suspect, put_detail, put_peer_summary, put_said, put_suspect,
};
use std::alloc::Global;

// The route of 198.51.100.0/24 by the peer 192.0.2.1 in AS 64501.
fn route(path: Option<u32>) -> Result<Key, NoMemory> {
    let Some(prefix) = Prefix::new(Addr::V4(0xc633_6400), 24) else {
        return Err(NoMemory);
    };
    let peer = Peer {
        addr: Addr::V4(0xc000_0201),
        asn: 64_501,
    };
    Ok(Key { peer, prefix, path })
}

// Puts a detail by itself, and once more behind the text of its peer.
fn put_both(
    out: &mut Vec<u8>,
    lines: &mut PeerLines,
    key: &Key,
    witness: Witness,
    trail: &Trail,
) -> Result<(), NoMemory> {
    put_detail(out, key, witness.verdict(), witness, trail)?;
    lines.put_detail(out, key, witness.verdict(), witness, trail)
}

// Paths, neighbour first: with a prepend, of the first and the last AS that there are, with a set, and without an AS.
#[test]
fn puts_details(rt: HostRuntime) -> Result<(), NoMemory> {
    let alloc = rt.alloc();
    let mut out = Vec::new(alloc);
    let mut lines = PeerLines::new();
    let plain = route(None)?;
    let numbered = route(Some(7))?;
    let valid = Witness::Valid {
        climbs: 1,
        free: 0,
        descents: 1,
    };
    let unsettled = Witness::Unsettled {
        first: 1,
        last: Some(2),
        climbs: 2,
        free: 1,
        descents: 0,
    };
    let three = Trail::new(alloc, false, &[64_501, 64_501, 64_502, 64_503])?;
    put_both(&mut out, &mut lines, &plain, valid, &three)?;
    let ends = Trail::new(alloc, false, &[64_501, 0, 4_294_967_295])?;
    put_both(&mut out, &mut lines, &numbered, unsettled, &ends)?;
    let set = Trail::new(alloc, true, &[64_501, 64_502])?;
    put_both(&mut out, &mut lines, &plain, Witness::Set, &set)?;
    let none = Trail::new(alloc, false, &[])?;
    put_both(&mut out, &mut lines, &plain, Witness::Empty, &none)?;
    let only_set = Trail::new(alloc, true, &[])?;
    put_both(&mut out, &mut lines, &plain, Witness::Set, &only_set)?;
    assert_eq!(rt;
        out.as_slice(),
        b"192.0.2.1 64501 198.51.100.0/24 valid climbs 1 free 0 descents 1 path 64501 64502 64503
192.0.2.1 64501 198.51.100.0/24 valid climbs 1 free 0 descents 1 path 64501 64502 64503
192.0.2.1 64501 198.51.100.0/24 path 7 unknown unsettled 1 2 climbs 2 free 1 descents 0 path 64501 0 4294967295
192.0.2.1 64501 198.51.100.0/24 path 7 unknown unsettled 1 2 climbs 2 free 1 descents 0 path 64501 0 4294967295
192.0.2.1 64501 198.51.100.0/24 invalid set path set 64501 64502
192.0.2.1 64501 198.51.100.0/24 invalid set path set 64501 64502
192.0.2.1 64501 198.51.100.0/24 invalid empty path
192.0.2.1 64501 198.51.100.0/24 invalid empty path
192.0.2.1 64501 198.51.100.0/24 invalid set path set
192.0.2.1 64501 198.51.100.0/24 invalid set path set
"
            .as_slice()
    );
    Ok(())
}

// Valleys: after an AS, and handed to us.
fn put_valleys(out: &mut Vec<u8>) -> Result<(), NoMemory> {
    put_suspect(
        out,
        Suspect {
            from: 64_503,
            first: 64_502,
            last: 64_502,
            to: Some(64_501),
            routes: 1,
            paths: 2,
        },
    )?;
    put_suspect(
        out,
        Suspect {
            from: 0,
            first: 1,
            last: 4_294_967_295,
            to: None,
            routes: 18_446_744_073_709_551_615,
            paths: 0,
        },
    )
}

fn said(alloc: Global) -> Result<Vec<u8>, NoMemory> {
    let mut out = Vec::new(alloc);
    put_said(&mut out, "! line 1 cause 33 Words")?;
    put_said(&mut out, "x")?;
    Ok(out)
}

#[test]
fn puts_valleys_and_sayings(rt: HostRuntime) -> Result<(), NoMemory> {
    let mut out = Vec::new(rt.alloc());
    put_valleys(&mut out)?;
    assert_eq!(rt;
        out.as_slice(),
        b"64503 64502 64502 64501 routes 1 paths 2
0 1 4294967295 here routes 18446744073709551615 paths 0
"
            .as_slice()
    );
    let said = said(rt.alloc())?;
    assert_eq!(rt;
        said.as_slice(),
        b"# ! line 1 cause 33 Words\n# x\n".as_slice()
    );
    Ok(())
}

// The shortest line of an AS without routes, and a long one of a peer.
#[test]
fn puts_peers(rt: HostRuntime) -> Result<(), NoMemory> {
    let mut out = Vec::new(rt.alloc());
    let idle = PeerSummary {
        addr: None,
        asn: 0,
        role: Role::Rs,
        own: true,
        routes: 0,
        valid: 0,
        unknown: 0,
        invalid: 0,
    };
    let most = PeerSummary {
        addr: Some(Addr::V6(0x2001_0db8_0000_0000_0000_0000_0000_0001)),
        asn: u32::MAX,
        role: Role::RsClient,
        own: false,
        routes: u64::MAX,
        valid: 1,
        unknown: 2,
        invalid: u64::MAX - 3,
    };
    put_peer_summary(&mut out, idle)?;
    put_peer_summary(&mut out, most)?;
    assert_eq!(rt;
        out.as_slice(),
        b"- 0 rs own routes 0 valid 0 unknown 0 invalid 0
2001:0db8:0000:0000:0000:0000:0000:0001 4294967295 rs-client default routes 18446744073709551615 valid 1 unknown 2 invalid 18446744073709551612
"
            .as_slice()
    );
    Ok(())
}
