//! What the answers of a cache make of a client's rows and payloads.
use crate::sessions::{RECEIVING_WHOLE, Sent, aspa, last_act, replayed, step, take};
use av_base::NoMemory;
use origin_model::{Vrp, VrpChanges};
use path_model::{Addr, Patch, Prefix, Rows};
use rtr_session::{Act, Delta, Session};
use std::alloc::Global;

fn announced(
    alloc: Global,
    session: Session,
    customer: u32,
    providers: &[u32],
) -> Result<Session, NoMemory> {
    Ok(take(session, aspa(alloc, customer, providers)?)?.0)
}

// A session that receives a whole answer: the customers 1 to 1000 announce the next AS each, and the last of them 300 providers.
fn thousand(alloc: Global) -> Result<Session, NoMemory> {
    let mut session = replayed(alloc, &RECEIVING_WHOLE)?;
    for customer in 1..=1_000u32 {
        session = announced(alloc, session, customer, &[customer + 1])?;
    }
    announced(alloc, session, 1_000, &numbers())
}

// The numbers 0 to 299.
fn numbers() -> [u32; 300] {
    let mut numbers = [0u32; 300];
    for (place, number) in numbers.iter_mut().enumerate() {
        *number = place as u32;
    }
    numbers
}

// The first provider of a customer, the last one, and how many it has.
fn ends(rows: &Rows, customer: u32) -> Option<(u32, u32, usize)> {
    let row = rows.row(customer)?;
    Some((row.get(0)?, *row.as_slice().last()?, row.len()))
}

// The rows that the End of Data of a whole answer hands out.
fn rows_of(act: Act) -> Option<Rows> {
    match act {
        Act::Apply(Delta::Whole(rows, _)) => Some(rows),
        _ => None,
    }
}

// 0 is no provider beside others.
fn is_thousand(rows: &Rows) -> bool {
    rows.entries().count() == 1_000
        && ends(rows, 999) == Some((1_000, 1_000, 1))
        && ends(rows, 1_000) == Some((1, 299, 299))
}

#[test]
fn a_thousand_rows(rt: HostRuntime) -> Result<(), NoMemory> {
    let (_, act) = step(rt.alloc(), thousand(rt.alloc())?, Sent::End(7))?;
    assert!(rt; rows_of(act).is_some_and(|rows| is_thousand(&rows)));
    Ok(())
}

// The rows and the payloads that the End of Data of an answer with changes names.
fn changes_of(act: Act) -> Option<(Patch, VrpChanges)> {
    match act {
        Act::Apply(Delta::Part(patch, changes)) => Some((patch, changes)),
        _ => None,
    }
}

// Changes: 64496 is withdrawn, 64500 has 3 and 5 at last, 64501 attests that it has no provider, 64502 comes and goes.
const ROWS: [Sent; 12] = [
    Sent::Ask,
    Sent::Response(7),
    Sent::Row(64_496, &[64_497]),
    Sent::End(7),
    Sent::Ask,
    Sent::Response(7),
    Sent::Withdrawal(64_496),
    Sent::Row(64_500, &[9]),
    Sent::Row(64_500, &[5, 0, 3, 5]),
    Sent::Row(64_501, &[0]),
    Sent::Row(64_502, &[1]),
    Sent::Withdrawal(64_502),
];

const NAMED: [(u32, Option<&[u32]>); 4] = [
    (64_496, None),
    (64_500, Some(&[3, 5])),
    (64_501, Some(&[])),
    (64_502, None),
];

// Whether a patch gives a customer these providers, or takes them away.
fn is_named(patch: &Patch, customer: u32, providers: Option<&[u32]>) -> bool {
    match patch.of(customer) {
        Some(Some(row)) => providers == Some(row.as_slice()),
        Some(None) => providers.is_none(),
        None => false,
    }
}

fn are_named(patch: &Patch) -> bool {
    for (customer, providers) in &NAMED {
        if !is_named(patch, *customer, *providers) {
            return false;
        }
    }
    patch.entries().count() == 4
}

#[test]
fn an_answer_with_changes_gives_those_named(rt: HostRuntime) -> Result<(), NoMemory> {
    let act = last_act(rt.alloc(), &ROWS, Sent::End(7))?;
    assert!(rt; changes_of(act).is_some_and(|(patch, _)| are_named(&patch)));
    Ok(())
}

// The payload of 198.51.100.0/24, a maximum and an AS.
fn vrp(max: u8, asn: u32) -> Option<Vrp> {
    Vrp::new(Prefix::new(Addr::V4(0xC633_6400), 24)?, max, asn)
}

// The payloads that the End of Data of a whole answer hands out: how many there are, and whether one is among them.
fn handed(act: &Act, max: u8, asn: u32) -> Option<(usize, bool)> {
    match act {
        Act::Apply(Delta::Whole(_, payloads)) => Some((
            payloads.entries().count(),
            payloads.contains(&vrp(max, asn)?),
        )),
        _ => None,
    }
}

// What changes say of a payload.
fn said_of(changes: &VrpChanges, wanted: Vrp) -> Option<bool> {
    for (named, announced) in changes.entries() {
        if *named == wanted {
            return Some(announced);
        }
    }
    None
}

// The payloads that the End of Data of an answer with changes names: how many, and what it says of one.
fn said(act: &Act, max: u8, asn: u32) -> Option<(usize, Option<bool>)> {
    match act {
        Act::Apply(Delta::Part(_, changes)) => {
            Some((changes.len(), said_of(changes, vrp(max, asn)?)))
        }
        _ => None,
    }
}

// A whole answer with two payloads: one that is announced twice is there once, and a withdrawn one is gone.
const PAYLOADS: [Sent; 7] = [
    Sent::Ask,
    Sent::Response(7),
    Sent::Payload(true, 24, 64_500),
    Sent::Payload(true, 24, 64_500),
    Sent::Payload(true, 25, 64_500),
    Sent::Payload(false, 25, 64_500),
    Sent::Payload(true, 32, 0),
];

#[test]
fn a_whole_answer_gives_payloads(rt: HostRuntime) -> Result<(), NoMemory> {
    let act = last_act(rt.alloc(), &PAYLOADS, Sent::End(7))?;
    for (max, asn, there) in [(24, 64_500, true), (25, 64_500, false), (32, 0, true)] {
        assert_eq!(rt; handed(&act, max, asn), Some((2, there)));
    }
    Ok(())
}

// Changes behind a whole answer, one payload after another.
const CHANGES: [Sent; 10] = [
    Sent::Ask,
    Sent::Response(7),
    Sent::Payload(true, 32, 0),
    Sent::End(7),
    Sent::Ask,
    Sent::Response(7),
    Sent::Payload(false, 32, 0),
    Sent::Payload(true, 25, 64_500),
    Sent::Payload(false, 25, 64_500),
    Sent::Payload(true, 25, 64_500),
];

// Changes name what the answer named alone, as it was named last.
#[test]
fn an_answer_with_changes_names_payloads(rt: HostRuntime) -> Result<(), NoMemory> {
    let act = last_act(rt.alloc(), &CHANGES, Sent::End(7))?;
    for (max, asn, named) in [
        (32, 0, Some(false)),
        (25, 64_500, Some(true)),
        (24, 64_500, None),
    ] {
        assert_eq!(rt; said(&act, max, asn), Some((2, named)));
    }
    Ok(())
}
