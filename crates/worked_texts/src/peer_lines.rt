//! Rows and changes of two peers, one after another.
use av_base::NoMemory;
use path_model::{Addr, Key, Peer, Prefix, Verdict};
use report_text::PeerLines;

#[test]
fn puts_lines_of_peers_in_turn(rt: HostRuntime) -> Result<(), NoMemory> {
    let mut out = Vec::new(rt.alloc());
    let mut lines = PeerLines::new();
    let one = Peer {
        addr: Addr::V4(0xc000_0201),
        asn: 64_501,
    };
    let other = Peer {
        addr: Addr::V6(0x2001_0db8_0000_0000_0000_0000_0000_0001),
        asn: 4_294_967_295,
    };
    let four = Addr::V4(0x090a_c800);
    let six = Addr::V6(0x2001_0db8_0000_abcd_0000_0000_0000_0000);
    let table = [
        (one, four, 24, None, Verdict::Valid),
        (one, Addr::V4(0), 0, Some(0), Verdict::Unknown),
        (other, six, 64, Some(4_294_967_295), Verdict::Invalid),
        (one, six, 128, None, Verdict::Valid),
    ];
    for (peer, addr, len, path, verdict) in table {
        if let Some(prefix) = Prefix::new(addr, len) {
            let key = Key { peer, prefix, path };
            lines.put_row(&mut out, &key, verdict)?;
            lines.put_change(&mut out, &key, None, Some(verdict))?;
        }
    }
    assert_eq!(rt;
        out.as_slice(),
        b"192.0.2.1 64501 9.10.200.0/24 valid
192.0.2.1 64501 9.10.200.0/24 none valid
192.0.2.1 64501 0.0.0.0/0 path 0 unknown
192.0.2.1 64501 0.0.0.0/0 path 0 none unknown
2001:0db8:0000:0000:0000:0000:0000:0001 4294967295 2001:0db8:0000:abcd:0000:0000:0000:0000/64 path 4294967295 invalid
2001:0db8:0000:0000:0000:0000:0000:0001 4294967295 2001:0db8:0000:abcd:0000:0000:0000:0000/64 path 4294967295 none invalid
192.0.2.1 64501 2001:0db8:0000:abcd:0000:0000:0000:0000/128 valid
192.0.2.1 64501 2001:0db8:0000:abcd:0000:0000:0000:0000/128 none valid
"
            .as_slice()
    );
    Ok(())
}
