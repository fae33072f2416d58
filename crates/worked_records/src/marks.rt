//! What records make of the marks of routes, one record after another (RFC 9234, section 5).
use crate::notes::{MARKED, MARKED_SIX};
use crate::records::{DOWN, NET, NET6, ONE, WITHDRAWN, noted};
use Otc::{Absent, As};
use av_base::NoMemory;
use otc_check::Marks;
use path_model::{Addr, Key, Otc, Prefix};
use std::alloc::Global;

// A prefix of the first peer, by its address and its length, and its route's mark.
type Mark = (Addr, u8, Otc);

const NEXT: Addr = Addr::V4(0xCB00_7100);

// A record that makes changes, and what routes have behind it, in key order.
type Step = (&'static str, &'static [Mark]);

const STEPS: [Step; 4] = [
    // 2001:db8::/32 has the attribute, and then two others that come before it.
    (MARKED_SIX, &[(NET, 24, Absent), (NET6, 32, As(64501))]),
    (
        MARKED,
        &[
            (NET, 24, As(64500)),
            (NEXT, 24, As(64500)),
            (NET6, 32, As(64501)),
        ],
    ),
    // 198.51.100.0/24 is withdrawn,
    (
        WITHDRAWN,
        &[
            (NET, 24, Absent),
            (NEXT, 24, As(64500)),
            (NET6, 32, As(64501)),
        ],
    ),
    // and the session ends.
    (DOWN, &[(NEXT, 24, Absent)]),
];

// The marks after the changes of one record.
fn applied(alloc: Global, marks: Marks, text: &str) -> Result<Marks, NoMemory> {
    match noted(alloc, text, None)? {
        Some(noted) => marks.apply(&noted),
        None => Ok(marks),
    }
}

// The mark of a route of the first peer.
fn mark(marks: &Marks, addr: Addr, len: u8) -> Option<Otc> {
    let prefix = Prefix::new(addr, len)?;
    let (peer, path) = (ONE, None);
    Some(marks.of(&Key { peer, prefix, path }))
}

// How many of these routes have the attribute, or `None` where one has another mark than this.
fn wanted(marks: &Marks, wants: &[Mark]) -> Option<usize> {
    let mut number = 0usize;
    for (addr, len, otc) in wants {
        if mark(marks, *addr, *len)? != *otc {
            return None;
        }
        if *otc != Absent {
            number = number.saturating_add(1);
        }
    }
    Some(number)
}

// Whether these routes have these marks, and no other route has one.
fn are_marked(marks: &Marks, wants: &[Mark]) -> bool {
    match wanted(marks, wants) {
        Some(number) => marks.iter().count() == number && marks.is_empty() == (number == 0),
        None => false,
    }
}

// How many steps leave the marks that they should, up to the first that doesn't.
fn count(alloc: Global, steps: &[Step]) -> Result<usize, NoMemory> {
    let mut marks = Marks::new(alloc);
    for (place, (text, wants)) in steps.iter().enumerate() {
        marks = applied(alloc, marks, text)?;
        if !are_marked(&marks, wants) {
            return Ok(place);
        }
    }
    Ok(steps.len())
}

#[test]
fn records_and_their_marks(rt: HostRuntime) -> Result<(), NoMemory> {
    assert_eq!(rt; count(rt.alloc(), &STEPS)?, 4);
    Ok(())
}
