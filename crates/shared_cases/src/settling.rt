//! Lists that become rising.
ghost use Rattle.std.specs.Prelude.{◌≡◌, ℕ, nat_eq, OnOk};
ghost use Rattle.std.specs.List.{list_any};
ghost use Rattle.std.specs.List.Sorted.{IsStrictlySortedBy};
ghost use Rattle.std.specs.Ordering.{nat_cmp};

use crate::bits::Bits;
use av_base::NoMemory;
use std::vec::Vec;

// Up to so many bits for each number are gone over, rather than that the numbers are sorted.
const WIDE: usize = 1024;

// So few numbers are sorted as soon.
const FEW: usize = 64;

// The numbers of the list rise from now on, and none stands there again. Where they lie close together it takes a step for each of them,
// and for each 64 up to the greatest one, of which there are at most 16 a number; a bit for each up to that one while it goes on. Else, or
// where there is no memory for that, it costs a sort, and half as much memory again as the list.
pub(crate) fn sort_dedup(numbers: &mut Vec<u32>) -> Result<(), NoMemory>
    ensures members { OnOk result ((n : ℕ)
        → list_any (nat_eq n) numbers.new.items ≡ list_any (nat_eq n) numbers.old.items) }
    ensures rising { OnOk result (IsStrictlySortedBy nat_cmp numbers.new.items) }
{
    let last = last_of(numbers.as_slice());
    if numbers.len() > FEW && last / WIDE < numbers.len() {
        if let Ok(bits) = Bits::of(*numbers.allocator(), numbers.as_slice(), last) {
            return bits.list_into(numbers);
        }
    }
    numbers.sort()?;
    numbers.dedup();
    Ok(())
}

// The greatest of these numbers. Nothing is promised of it.
pub(crate) fn last_of(numbers: &[u32]) -> usize {
    let mut last: u32 = 0;
    for number in numbers {
        last = last.max(*number);
    }
    last as usize
}
