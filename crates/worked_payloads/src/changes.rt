//! What is said of payloads: each by what was said last, in the payloads' order.
use av_base::NoMemory;
use origin_model::{Vrp, VrpChanges};
use path_model::{Addr, Prefix};
use std::alloc::Global;

// The payload of 192.0.2.0/24 for an AS.
fn vrp(asn: u32) -> Option<Vrp> {
    Vrp::new(Prefix::new(Addr::V4(0xc000_0200), 24)?, 24, asn)
}

fn noted(alloc: Global) -> Result<VrpChanges, NoMemory> {
    let mut changes = VrpChanges::new(alloc);
    for (asn, announced) in [(3, true), (1, false), (2, true), (3, false), (1, true)] {
        if let Some(v) = vrp(asn) {
            changes.note(v, announced)?;
        }
    }
    Ok(changes)
}

// The ASes, each with whether it is announced.
fn told(alloc: Global, changes: &VrpChanges) -> Result<Vec<(u32, bool)>, NoMemory> {
    let mut told = Vec::new(alloc);
    for (v, announced) in changes.entries() {
        told.push((v.asn(), announced))?;
    }
    Ok(told)
}

#[test]
fn the_last_word_counts(rt: HostRuntime) -> Result<(), NoMemory> {
    assert!(rt; VrpChanges::new(rt.alloc()).is_empty());
    let changes = noted(rt.alloc())?.copy()?;
    assert!(rt; !changes.is_empty() && changes.len() == 3);
    let told = told(rt.alloc(), &changes)?;
    assert_eq!(rt;
        told.as_slice(),
        [(1, true), (2, true), (3, false)].as_slice()
    );
    Ok(())
}
