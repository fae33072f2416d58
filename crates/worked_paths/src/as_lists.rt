//! Lists of six to nine ASes: more than seven are in memory of their own.
use av_base::NoMemory;
use path_model::AsList;
use std::alloc::Global;

// These ASes, pushed one after another.
fn pushed(alloc: Global, ases: &[u32]) -> Result<AsList, NoMemory> {
    let mut list = AsList::new(alloc);
    for x in ases {
        list.push(*x)?;
    }
    Ok(list)
}

// The first five of these ASes, and then the rest at once.
fn extended(alloc: Global, ases: &[u32]) -> Result<AsList, NoMemory> {
    let Some((first, rest)) = ases.split_at_checked(5) else {
        return Ok(AsList::new(alloc));
    };
    let mut list = AsList::from_slice(alloc, first)?;
    list.extend(rest)?;
    Ok(list)
}

// Whether a list has these ASes, its copy too, and this is its set.
fn is_right(list: AsList, ases: &[u32], set: &[u32]) -> Result<bool, NoMemory> {
    let copied = list.copy()?;
    let has_all = list.as_slice() == ases && list.len() == ases.len();
    Ok(has_all && copied.as_slice() == ases && list.into_set().as_slice() == set)
}

// Whether all lists that are made of these ASes have them, and this is their set.
fn are_right(alloc: Global, ases: &[u32], set: &[u32]) -> Result<bool, NoMemory> {
    let at_once = AsList::from_slice(alloc, ases)?;
    let from_vec = AsList::from_vec(Vec::from_slice(alloc, ases)?);
    let one_by_one = is_right(pushed(alloc, ases)?, ases, set)?;
    let in_parts = is_right(extended(alloc, ases)?, ases, set)?;
    let is_at_once = is_right(at_once, ases, set)?;
    Ok(one_by_one && in_parts && is_at_once && is_right(from_vec, ases, set)?)
}

#[test]
fn few_and_many_ases(rt: HostRuntime) -> Result<(), NoMemory> {
    let alloc = rt.alloc();
    let six = are_right(alloc, &[9, 4, 4, 7, 1, 9], &[1, 4, 7, 9])?;
    let seven = are_right(alloc, &[9, 4, 4, 7, 1, 9, 3], &[1, 3, 4, 7, 9])?;
    let eight = are_right(alloc, &[9, 4, 4, 7, 1, 9, 3, 8], &[1, 3, 4, 7, 8, 9])?;
    let nine = are_right(alloc, &[9, 4, 4, 7, 1, 9, 3, 8, 2], &[1, 2, 3, 4, 7, 8, 9])?;
    assert!(rt; six);
    assert!(rt; seven);
    assert!(rt; eight);
    assert!(rt; nine);
    Ok(())
}
