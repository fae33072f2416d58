//! A set of numbers, of ASes or of cases, in one rising list: one of the ways in which `held` keeps a set (`Held::Listed`).
ghost use Rattle.std.specs.Prelude.{◌≡◌, ◌<◌, ◌-◌, length, IsTrue, IfOk, IfErr, OnOk, OnErr};
ghost use Rattle.std.specs.BTreeMap.{is_at};
ghost use Rattle.std.specs.BTreeSet.{insert_key};
ghost use Rattle.std.specs.List.{AllByRecursion};
ghost use Rattle.std.specs.List.Sorted.{IsStrictlySortedBy, IsSearchInRange};
ghost use Rattle.std.specs.Ordering.{nat_cmp};
ghost use Rattle.std.specs.Set.{remove_key};
ghost use Rattle.hop_index.specs.Held.{AreBelow};
ghost use Rattle.sorted_map.specs.Chunk.{HasAt, IsGap};

use av_base::NoMemory;

// One number more, where it isn't there yet. One above all others goes to the end at once.
#[inline(always)]
pub(crate) fn insert(numbers: &mut Vec<u32>, number: u32) -> Result<(), NoMemory>
    requires rising { IsStrictlySortedBy nat_cmp numbers.old.items }
    ensures inserted { OnOk result (numbers.new.items
        ≡ insert_key nat_cmp numbers.old.items number) }
    ensures kept { OnErr result (numbers.new.items ≡ numbers.old.items) }
{
    if are_below(numbers, number) {
        numbers.push(number)?;
        return Ok(());
    }
    insert_within(numbers, number)
}

// One number less, if it is there. It takes no memory.
pub(crate) fn remove(numbers: &mut Vec<u32>, number: u32)
    requires rising { IsStrictlySortedBy nat_cmp numbers.old.items }
    ensures { numbers.new.items ≡ remove_key (is_at (nat_cmp number)) numbers.old.items }
{
    match search(numbers, number) {
        Ok(at) => {
            numbers.remove(at);
        }
        Err(_) => {}
    }
}

// One number more, where it isn't there yet, by a search.
#[inline(never)]
fn insert_within(numbers: &mut Vec<u32>, number: u32) -> Result<(), NoMemory>
    requires rising { IsStrictlySortedBy nat_cmp numbers.old.items }
    ensures inserted { OnOk result (numbers.new.items
        ≡ insert_key nat_cmp numbers.old.items number) }
    ensures kept { OnErr result (numbers.new.items ≡ numbers.old.items) }
{
    match search(numbers, number) {
        Ok(_) => Ok(()),
        Err(at) => {
            numbers.insert(at, number)?;
            Ok(())
        }
    }
}

// Whether all are below this number.
fn are_below(numbers: &[u32], number: u32) -> bool
    requires rising { IsStrictlySortedBy nat_cmp numbers.now }
    ensures { IsTrue result → AreBelow number numbers.now }
{
    match numbers.last() {
        None => true,
        Some(last) => number.cmp(last).is_gt(),
    }
}

// The place of the number, or the one where it would go. The last one is found at once.
fn search(numbers: &[u32], number: u32) -> Result<usize, usize>
    requires rising { IsStrictlySortedBy nat_cmp numbers.now }
    ensures within { IsSearchInRange result (length numbers.now) }
    ensures found { IfOk result (HasAt nat_cmp number numbers.now) }
    ensures absent { IfErr result (IsGap nat_cmp number numbers.now) }
{
    if is_last(numbers, number) {
        return Ok(numbers.len() - 1);
    }
    numbers.binary_search(&number)
}

// Whether the number is the last one.
#[inline(always)]
fn is_last(numbers: &[u32], number: u32) -> bool
    requires rising { IsStrictlySortedBy nat_cmp numbers.now }
    ensures here { IsTrue result → HasAt nat_cmp number numbers.now (length numbers.now - 1) }
    ensures within { IsTrue result → 0 < length numbers.now }
{
    match numbers.last() {
        None => false,
        Some(last) => number.cmp(last).is_eq(),
    }
}
