//! Lines of routes' origins, and the refusals of prefixes.
use av_base::NoMemory;
use origin_model::OriginState;
use path_model::{Addr, Key, Peer, Prefix};
use report_text::{Cause, Place, put_origin, put_refusal};

#[test]
fn puts_origins(rt: HostRuntime) -> Result<(), NoMemory> {
    let mut out = Vec::new(rt.alloc());
    let peer = Peer {
        addr: Addr::V4(0xc000_0201),
        asn: 64_501,
    };
    let table = [
        (None, OriginState::Valid),
        (None, OriginState::NotFound),
        (Some(7), OriginState::Invalid),
    ];
    for (path, state) in table {
        if let Some(prefix) = Prefix::new(Addr::V4(0xc633_6400), 24) {
            put_origin(&mut out, &Key { peer, prefix, path }, state)?;
        }
    }
    assert_eq!(rt;
        out.as_slice(),
        b"192.0.2.1 64501 198.51.100.0/24 valid
192.0.2.1 64501 198.51.100.0/24 not-found
192.0.2.1 64501 198.51.100.0/24 path 7 invalid
"
            .as_slice()
    );
    Ok(())
}

#[test]
fn puts_refusals_of_prefixes(rt: HostRuntime) -> Result<(), NoMemory> {
    let mut out = Vec::new(rt.alloc());
    let file = Place::Unit {
        name: "slurm",
        unit: 1,
    };
    let second = Place::Unit { name: "c", unit: 2 };
    put_refusal(&mut out, 4, file, Cause::PrefixText)?;
    put_refusal(&mut out, 4, second, Cause::PrefixRecord)?;
    assert_eq!(rt;
        out.as_slice(),
        b"! line 4 slurm unit 1 cause 42 PrefixText
! line 4 c unit 2 cause 43 PrefixRecord
"
            .as_slice()
    );
    Ok(())
}
