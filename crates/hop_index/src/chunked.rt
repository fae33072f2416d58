//! Many numbers, in sorted chunks: the keys of a map whose values say nothing.
ghost use Rattle.std.specs.Prelude.{◌≡◌, IfOk, OnOk, OnErr};
ghost use Rattle.std.specs.BTreeMap.{is_at};
ghost use Rattle.std.specs.BTreeSet.{insert_key};
ghost use Rattle.std.specs.List.Sorted.{IsStrictlySortedBy};
ghost use Rattle.std.specs.Map.{keys_of};
ghost use Rattle.std.specs.Ordering.{nat_cmp};
ghost use Rattle.std.specs.Set.{remove_key};

use av_base::NoMemory;
use sorted_map::Sorted;
use std::alloc::Global;

// These numbers.
pub(crate) fn of(alloc: Global, numbers: &[u32]) -> Result<Sorted<u32, ()>, NoMemory>
    requires rising { IsStrictlySortedBy nat_cmp numbers.now }
    ensures { IfOk result (λ chunked. keys_of chunked ≡ numbers.now) }
{
    let mut chunked = Sorted::new(alloc);
    for number in numbers {
        chunked.insert(*number, ())?;
    }
    Ok(chunked)
}

// One number more, where it isn't there yet.
pub(crate) fn insert(numbers: &mut Sorted<u32, ()>, number: u32) -> Result<(), NoMemory>
    ensures inserted { OnOk result (keys_of numbers.new
        ≡ insert_key nat_cmp (keys_of numbers.old) number) }
    ensures kept { OnErr result (keys_of numbers.new ≡ keys_of numbers.old) }
{
    numbers.insert(number, ())?;
    Ok(())
}

// One number less, if it is there. It takes no memory.
pub(crate) fn remove(numbers: &mut Sorted<u32, ()>, number: u32)
    ensures { keys_of numbers.new ≡ remove_key (is_at (nat_cmp number)) (keys_of numbers.old) }
{
    numbers.remove(&number);
}
