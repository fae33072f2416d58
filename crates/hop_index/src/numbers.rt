//! Sets of numbers, of ASes or of cases.
ghost use Rattle.std.specs.Prelude.{◌≡◌, ◌≢◌, ◌↔◌, ℕ, nat_eq, not, ◌++◌, ◌||◌, ◌&&◌, [], IsTrue, OnOk};
ghost use Rattle.std.specs.List.Sorted.{IsStrictlySortedBy};
ghost use Rattle.std.specs.Ordering.{nat_cmp};
ghost use Rattle.hop_index.specs.Numbers.{has_number};

use crate::held::{self, Held};
use crate::number_iter::{Left, NumberIter};
use av_base::NoMemory;
use std::alloc::Global;
use std::marker::Model;

/// A set of numbers below 2^32, which a contract sees as a rising list. It takes 16 bytes, and up to three numbers take no more; from the
/// fourth on they take 4 to 8 bytes each and some 24 together, and beyond 512 numbers up to 16 each where they come in no order.
#[derive(Drop)]
pub struct Numbers {
    alloc: Global,
    held: Held,
}

impl Model for Numbers {
    ghost use Rattle.std.specs.Prelude.{List, ℕ};
    ghost use Rattle.std.specs.List.Sorted.{IsStrictlySortedBy};
    ghost use Rattle.std.specs.Ordering.{nat_cmp};
    ghost use Rattle.hop_index.specs.Held.{numbers_held};

    ghost Value = { List ℕ };

    ghost view = { λ a. numbers_held a.held };

    ghost invariant = { λ a. IsStrictlySortedBy nat_cmp (numbers_held a.held) };
}

impl Numbers {
    /// None. It takes no memory.
    pub fn new(alloc: Global) -> Numbers
        ensures { result ≡ [] }
    {
        Numbers {
            alloc,
            held: Held::Empty,
        }
    }

    /// One more.
    pub fn insert(&mut self, number: u32) -> Result<(), NoMemory>
        ensures added { OnOk result ((n : ℕ)
            → has_number self.new n ≡ (has_number self.old n || nat_eq n number)) }
        ensures some { OnOk result (self.new ≢ []) }
        ensures rising { OnOk result (IsStrictlySortedBy nat_cmp self.new) }
    {
        held::insert(&mut self.held, self.alloc, number)?;
        Ok(())
    }

    /// One less. It takes no memory.
    pub fn remove(&mut self, number: u32)
        ensures removed { (n : ℕ)
            → has_number self.new n ≡ (has_number self.old n && not (nat_eq n number)) }
        ensures rising { IsStrictlySortedBy nat_cmp self.new }
    {
        held::remove(&mut self.held, number);
    }

    /// Whether there are none.
    pub fn is_empty(&self) -> bool
        ensures { IsTrue result ↔ (self.now ≡ []) }
    {
        match &self.held {
            Held::Empty => true,
            Held::Listed(numbers) => numbers.is_empty(),
            Held::Many(numbers) => numbers.len() == 0,
            _ => false,
        }
    }

    // Reads how they are held. The number says nothing.
    #[inline(always)]
    pub(crate) fn head(&self) -> usize {
        match &self.held {
            Held::Many(_) => 1,
            Held::Listed(_) => 2,
            _ => 0,
        }
    }

    // Reads the last one of many. The number says nothing.
    #[inline(always)]
    pub(crate) fn read_last(&self) -> usize {
        match &self.held {
            Held::Listed(numbers) => match numbers.last() {
                None => 0,
                Some(number) => *number as usize,
            },
            Held::Many(numbers) => match numbers.last() {
                None => 0,
                Some((number, _)) => *number as usize,
            },
            _ => 0,
        }
    }

    /// Appends the numbers, rising. They are copied by the slices in which they are held. Where there was no memory, some may have been
    /// appended.
    pub fn push_into(&self, into: &mut Vec<u32>) -> Result<(), NoMemory>
        ensures { OnOk result (into.new.items ≡ into.old.items ++ self.now) }
    {
        match &self.held {
            Held::Empty => {}
            Held::One(a) => into.push(*a)?,
            Held::Two(a, b) => into.extend_from_slice(&[*a, *b])?,
            Held::Three(a, b, c) => into.extend_from_slice(&[*a, *b, *c])?,
            Held::Listed(numbers) => into.extend_from_slice(numbers.as_slice())?,
            Held::Many(numbers) => return numbers.push_keys(into),
        }
        Ok(())
    }

    /// The numbers, rising.
    pub fn iter(&self) -> NumberIter<'_>
        ensures whole { result ≡ self.now }
        ensures rising { IsStrictlySortedBy nat_cmp self.now }
    {
        let left = match &self.held {
            Held::Empty => Left::End,
            Held::One(a) => Left::Last(*a),
            Held::Two(a, b) => Left::LastTwo(*a, *b),
            Held::Three(a, b, c) => Left::LastThree(*a, *b, *c),
            Held::Listed(numbers) => Left::OfListed(numbers.iter()),
            Held::Many(numbers) => Left::OfMany(numbers.iter()),
        };
        NumberIter { left }
    }
}
