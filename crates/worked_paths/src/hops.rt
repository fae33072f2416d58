//! Hops of cases, added, found and removed.
ghost use Rattle.std.specs.Prelude.{IfOk};
ghost use Rattle.hop_index.specs.Index.{IsListed};

use av_base::NoMemory;
use hop_index::HopIndex;
use path_model::AsList;
use std::alloc::Global;
use std::process::Abort;

// Case 7.
const CHAIN: [u32; 4] = [1, 2, 3, 2];

// Case 5.
const OTHER: [u32; 2] = [3, 2];

// The hops of these two cases and of one that has none.
fn indexed(alloc: Global) -> Result<HopIndex, NoMemory>
    ensures { IfOk result IsListed }
{
    let chain = AsList::from_slice(alloc, &CHAIN)?;
    let other = AsList::from_slice(alloc, &OTHER)?;
    let lone = AsList::from_slice(alloc, &[2])?;
    let mut index = HopIndex::new(alloc);
    index.add(7, &chain)?;
    index.add(5, &other)?;
    index.add(9, &lone)?;
    Ok(index)
}

// Compares the hops of an AS, each its other end and its case.
fn test_hops(rt: &impl Abort, index: &HopIndex, asn: u32, wanted: &[(u32, usize)]) {
    let mut left = wanted.iter();
    for hop in index.through(asn) {
        assert!(rt; left.next() == Some(&hop));
    }
    assert!(rt; left.next().is_none());
}

// Compares the cases of the hop between two ASes, behind what stands there.
fn test_between(
    rt: &impl Abort,
    index: &HopIndex,
    x: u32,
    y: u32,
    found: &mut Vec<u32>,
    wanted: &[u32],
) -> Result<(), NoMemory> {
    index.push_between(x, y, found)?;
    assert!(rt; found.as_slice() == wanted);
    Ok(())
}

// Compares the neighbours of an AS.
fn test_neighbours(rt: &impl Abort, index: &HopIndex, asn: u32, wanted: &[u32]) {
    let mut left = wanted.iter();
    for neighbour in index.neighbours(asn) {
        assert!(rt; left.next() == Some(&neighbour));
    }
    assert!(rt; left.next().is_none());
}

#[test]
fn finds_hops(rt: HostRuntime) -> Result<(), NoMemory> {
    test_hops(&rt, &HopIndex::new(rt.alloc()), 2, &[]);
    let index = indexed(rt.alloc())?;
    test_hops(&rt, &index, 2, &[(1, 7), (3, 5), (3, 7)]);
    test_hops(&rt, &index, 1, &[(2, 7)]);
    test_hops(&rt, &index, 4, &[]);
    let mut found = Vec::new(rt.alloc());
    test_between(&rt, &index, 1, 3, &mut found, &[])?;
    test_between(&rt, &index, 1, 2, &mut found, &[7])?;
    test_between(&rt, &index, 3, 2, &mut found, &[7, 5, 7])?;
    test_neighbours(&rt, &index, 2, &[1, 3]);
    test_neighbours(&rt, &index, 4, &[]);
    Ok(())
}

#[test]
fn finds_hops_that_are_not_listed(rt: HostRuntime) -> Result<(), NoMemory> {
    let alloc = rt.alloc();
    let mut index = HopIndex::unlisted(alloc);
    index.put(0, &AsList::from_slice(alloc, &OTHER)?)?;
    index.put(1, &AsList::from_slice(alloc, &CHAIN)?)?;
    for _state in 0..2 {
        test_hops(&rt, &index, 2, &[(1, 1), (3, 0), (3, 1)]);
        test_hops(&rt, &index, 3, &[(2, 0), (2, 1)]);
        test_hops(&rt, &index, 4, &[]);
        let mut found = Vec::new(alloc);
        test_between(&rt, &index, 2, 3, &mut found, &[0, 1])?;
        test_between(&rt, &index, 1, 2, &mut found, &[0, 1, 1])?;
        test_between(&rt, &index, 1, 3, &mut found, &[0, 1, 1])?;
        index.list()?;
    }
    Ok(())
}

#[test]
fn forgets_hops(rt: HostRuntime) -> Result<(), NoMemory> {
    let alloc = rt.alloc();
    let mut index = indexed(alloc)?;
    index.remove(7, &AsList::from_slice(alloc, &CHAIN)?);
    test_hops(&rt, &index, 2, &[(3, 5)]);
    test_hops(&rt, &index, 1, &[]);
    index.remove(5, &AsList::from_slice(alloc, &OTHER)?);
    test_hops(&rt, &index, 3, &[]);
    Ok(())
}
