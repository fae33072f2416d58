//! Places as text: hosts with a port.
ghost use Rattle.std.specs.Prelude.{◌≤◌};

use av_text::read_host_port;

#[test]
fn reads_hosts_with_ports(rt: HostRuntime) {
    let table: [(&[u8], &[u8], u16); 10] = [
        (b"cache:323", b"cache", 323),
        (b"rpki.example.net:8282", b"rpki.example.net", 8282),
        (b"4ever.a-1_b.x9:1", b"4ever.a-1_b.x9", 1),
        (b"0.0.0.0:1", b"0.0.0.0", 1),
        (b"192.0.2.1:65535", b"192.0.2.1", 65_535),
        (b"[::]:1", b"[::]", 1),
        (b"[::1]:8282", b"[::1]", 8282),
        (b"[2001:DB8::a]:323", b"[2001:DB8::a]", 323),
        (b"[1:2:3:4:5:6:7:8]:323", b"[1:2:3:4:5:6:7:8]", 323),
        (b"[::ffff:192.0.2.1]:323", b"[::ffff:192.0.2.1]", 323),
    ];
    for (text, host, port) in table {
        match read_host_port(text) {
            None => assert!(rt; false),
            Some(found) => assert_eq!(rt; (found.host, found.port), (host, port)),
        }
    }
}

#[test]
fn refuses_other_places(rt: HostRuntime) {
    let table: [&[u8]; 32] = [
        b"",
        b":",
        b"cache",
        b"cache:",
        b":323",
        b"cache:0",
        b"cache:65536",
        b"cache:0323",
        b"cache:+323",
        b"cache:-1",
        b"cache:rtr",
        b"cache: 323",
        b"cache :323",
        b"cache:323 ",
        b"cache:1:323",
        b"cache.:323",
        b".cache:323",
        b"a..b:323",
        b"a/b:323",
        b"caf\xc3\xa9:323",
        b"1.2.3:323",
        b"0x7f.1:323",
        b"192.0.2.01:323",
        b"192.0.2.256:323",
        b"192.0.2.1.5:323",
        b"::1:323",
        b"[::1]323",
        b"[::1:323",
        b"[192.0.2.1]:323",
        b"[cache]:323",
        b"[fe80::1%1]:323",
        b"[1:2:3:4:5:6:7]:323",
    ];
    for text in table {
        assert!(rt; read_host_port(text).is_none());
    }
    assert!(rt; read_host_port(&[b'a'; 253]).is_none());
    assert!(rt; reads_a_host_of(253));
    assert!(rt; !reads_a_host_of(254));
}

// Whether a name of so many letters is a host.
fn reads_a_host_of(letters: usize) -> bool
    requires { letters ≤ 254 }
{
    let mut text = [b'a'; 258];
    text[letters..letters + 4].copy_from_slice(b":323");
    read_host_port(&text[..letters + 4]).is_some()
}
