//! Cases that are read ahead of their use, so that memory is waited for once and not for each. No contract speaks of it: what is read is at hand
//! afterwards.

use crate::case::StoredCase;
use crate::case_name::mixed;
use crate::names::Names;
use slab::Slab;

// How many cases are read together.
const MOST: usize = 16;

// Reads the cases of a list from a place on, and answers the place behind them. Nothing is promised of it.
#[inline(never)]
pub(crate) fn read_from(slab: &Slab<StoredCase>, numbers: &[u32], at: usize) -> usize {
    let Some(rest) = numbers.get(at..) else {
        return at;
    };
    let mut read: usize = 0;
    let mut place = at;
    for number in rest.iter().take(MOST) {
        read = read.wrapping_mul(3).wrapping_add(read_ends(slab, *number));
        place = place.wrapping_add(1);
    }
    // it hardly ever is, but what was read must have a use: of a plain sum the compiler knows that it never is, and reads nothing
    if read == usize::MAX {
        return at;
    }
    place
}

// Reads the last cases of a list, each once where its number stands beside itself, and where their names are looked for. Answered is how many
// these are; nothing is promised of it.
#[inline(never)]
pub(crate) fn read_last(slab: &Slab<StoredCase>, names: &Names, numbers: &[u32]) -> usize {
    let mut cases = [u32::MAX; MOST];
    let len = put_last(&mut cases, numbers);
    let mut read: usize = 0;
    for number in cases.iter() {
        read = read.wrapping_mul(3).wrapping_add(read_ends(slab, *number));
    }
    for number in cases.iter() {
        read = read
            .wrapping_mul(3)
            .wrapping_add(read_name(slab, names, *number));
    }
    // as above
    if read == usize::MAX {
        return 0;
    }
    len
}

// Puts the last numbers of a list, each once where it stands beside itself, as many as there is room for, and answers how many these are.
fn put_last(cases: &mut [u32], numbers: &[u32]) -> usize {
    let mut len: usize = 0;
    let mut last = None;
    for number in numbers.iter().rev() {
        if last != Some(*number) {
            let Some(place) = cases.get_mut(len) else {
                return len;
            };
            *place = *number;
            len = len.wrapping_add(1);
        }
        last = Some(*number);
    }
    len
}

// Reads a case at both ends. The number says nothing.
#[inline(always)]
fn read_ends(slab: &Slab<StoredCase>, number: u32) -> usize {
    match slab.get(number as usize) {
        None => 0,
        Some(case) => case.users.wrapping_add(case.asn) as usize,
    }
}

// Reads where the name of a case is looked for first. The number says nothing.
#[inline(always)]
fn read_name(slab: &Slab<StoredCase>, names: &Names, number: u32) -> usize {
    match slab.get(number as usize) {
        None => 0,
        Some(case) => usize::from(names.near(mixed(case.asn, &case.trail)).is_some()),
    }
}
