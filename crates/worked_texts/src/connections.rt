//! Lines on connections: how a feed or a router ends, and what came of serving routers.
use av_base::NoMemory;
use path_model::Name;
use report_text::{Cause, FeedEnd, Place, put_feed, put_refusal, put_served};

#[test]
fn puts_ends(rt: HostRuntime) -> Result<(), NoMemory> {
    let alloc = rt.alloc();
    let mut out = Vec::new(alloc);
    let table = [
        (1, b"rpki-1".as_slice(), FeedEnd::Unreachable),
        (2, b"rpki-1", FeedEnd::Short),
        (u64::MAX, b"rpki-1", FeedEnd::Lost),
        (1, b"serve", FeedEnd::Unreachable),
        (2, b"serve", FeedEnd::Lost),
        (3, b"serve", FeedEnd::Short),
    ];
    for (line, bytes, end) in table {
        let Some(name) = Name::new(alloc, bytes)? else {
            return Err(NoMemory);
        };
        put_feed(&mut out, line, &name, end)?;
    }
    assert_eq!(rt;
        out.as_slice(),
        b"! line 1 rpki-1 unreachable
! line 2 rpki-1 short
! line 18446744073709551615 rpki-1 lost
! line 1 serve unreachable
! line 2 serve lost
! line 3 serve short
"
            .as_slice()
    );
    Ok(())
}

// A row that fits no PDU, and a PDU of a router that is refused.
#[test]
fn puts_refusals_of_serving(rt: HostRuntime) -> Result<(), NoMemory> {
    let mut out = Vec::new(rt.alloc());
    let second = Place::Unit {
        name: "serve",
        unit: 2,
    };
    put_refusal(&mut out, 1, Place::Line, Cause::RowLong)?;
    put_refusal(&mut out, 3, second, Cause::PduType)?;
    assert_eq!(rt;
        out.as_slice(),
        b"! line 1 cause 44 RowLong\n! line 3 serve unit 2 cause 17 PduType\n".as_slice()
    );
    Ok(())
}

#[test]
fn puts_what_came_of_serving(rt: HostRuntime) -> Result<(), NoMemory> {
    let mut out = Vec::new(rt.alloc());
    put_served(&mut out, 0, 0)?;
    put_served(&mut out, 1, 65_536)?;
    put_served(&mut out, u32::MAX, u64::MAX)?;
    assert_eq!(rt;
        out.as_slice(),
        b"served 0 answers 0
served 1 answers 65536
served 4294967295 answers 18446744073709551615
"
            .as_slice()
    );
    Ok(())
}
