//! Sets of case numbers.
ghost use Rattle.std.specs.Prelude.{◌≡◌, ◌≢◌, ◌↔◌, ℕ, nat_eq, not, ◌++◌, ◌||◌, ◌&&◌, [], length, IsTrue, OnOk};
ghost use Rattle.std.specs.Ordering.{nat_cmp};
ghost use Rattle.std.specs.List.Sorted.{IsStrictlySortedBy};
ghost use Rattle.shared_cases.specs.Numbers.{has};

use crate::number_iter::NumberIter;
use av_base::NoMemory;
use hop_index::Numbers;
use std::alloc::Global;
use std::marker::Model;

// A set of case numbers, each below 2^32; a contract sees it as a rising list. It takes 16 bytes, and up to three numbers take no more; from
// the fourth on they take 4 to 8 bytes each, and beyond 512 numbers up to 16 where they come in no order.
#[derive(Drop)]
pub(crate) struct CaseNumbers {
    numbers: Numbers,
}

impl Model for CaseNumbers {
    ghost use Rattle.std.specs.Prelude.{List, ℕ};

    ghost Value = { List ℕ };

    ghost view = { λ a. a.numbers };
}

impl CaseNumbers {
    // None. It takes no memory.
    pub(crate) fn new(alloc: Global) -> CaseNumbers
        ensures { result ≡ [] }
    {
        CaseNumbers {
            numbers: Numbers::new(alloc),
        }
    }

    // One more. For a number of 2^32 or above there is no memory.
    pub(crate) fn insert(&mut self, number: usize) -> Result<(), NoMemory>
        ensures members { OnOk result ((n : ℕ)
            → has self.new n ≡ (has self.old n || nat_eq n number)) }
        ensures some { OnOk result (self.new ≢ []) }
    {
        let Ok(short) = u32::try_from(number) else {
            return Err(NoMemory);
        };
        self.numbers.insert(short)
    }

    // One less. It takes no memory.
    pub(crate) fn remove(&mut self, number: u32)
        ensures { (n : ℕ) → has self.new n ≡ (has self.old n && not (nat_eq n number)) }
    {
        self.numbers.remove(number);
    }

    // Whether there are none.
    pub(crate) fn is_empty(&self) -> bool
        ensures { IsTrue result ↔ (self.now ≡ []) }
    {
        self.numbers.is_empty()
    }

    // Appends the numbers, rising. Where there was no memory, some may have been appended.
    pub(crate) fn push_into(&self, into: &mut Vec<u32>) -> Result<(), NoMemory>
        ensures { OnOk result (into.new.items ≡ into.old.items ++ self.now) }
    {
        self.numbers.push_into(into)
    }

    // The numbers, rising.
    pub(crate) fn iter(&self) -> NumberIter<'_>
        ensures whole { result ≡ self.now }
        ensures rising { IsStrictlySortedBy nat_cmp self.now }
    {
        NumberIter {
            numbers: self.numbers.iter(),
        }
    }
}
