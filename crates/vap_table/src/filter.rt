//! Marks of numbers, which tell most others at once: a Bloom filter with one bit for each, and no local filter.
ghost use Rattle.std.specs.Prelude.{◌≡◌, ◌<◌, ℕ, true, length, OnOk};
ghost use Rattle.vap_table.specs.Filter.{place_of, bit_of, is_marked};

use av_base::NoMemory;
use std::alloc::Global;
use std::vec::Vec;

// So many words of 64 bits at first, 8 KiB.
const FIRST_LEN: usize = 1024;

// Odd, and near 2^64 divided by the golden ratio. Of a product with it the upper 24 bits tell numbers apart best: those below them are alike for
// many small ones.
const FACTOR: u64 = 11400714819323198485;

/// Marks of numbers: of each that was put, and of some others. It takes no memory until the first is put, and then 8 KiB.
#[derive(Drop)]
pub(crate) struct Filter {
    // none, or a power of two
    words: Vec<u64>,
}

impl Filter {
    /// None is marked. It takes no memory.
    pub(crate) fn new(alloc: Global) -> Filter {
        Filter {
            words: Vec::new(alloc),
        }
    }

    /// The same, with room for so many numbers: 16 to 32 bits for each, and 8 KiB at least.
    pub(crate) fn with_room(alloc: Global, count: usize) -> Result<Filter, NoMemory> {
        let mut words = Vec::new(alloc);
        words.resize(FIRST_LEN.max((count / 4).next_power_of_two()), 0)?;
        Ok(Filter { words })
    }

    /// Whether a number is marked.
    #[inline(always)]
    pub(crate) fn may_have(&self, number: u32) -> bool
        ensures { result ≡ is_marked self.now.words.items number }
    {
        let len = self.words.len();
        if len == 0 {
            return false;
        }
        (self.words[place_of(len, number)] >> bit_of(number)) & 1 != 0
    }

    /// A number is marked from now on, and so are those that were.
    pub(crate) fn put(&mut self, number: u32) -> Result<(), NoMemory>
        ensures put { OnOk result (is_marked self.new.words.items number ≡ true) }
        ensures kept { (q : ℕ) → is_marked self.old.words.items q ≡ true
            → is_marked self.new.words.items q ≡ true }
    {
        if self.words.is_empty() {
            self.words.resize(FIRST_LEN, 0)?;
        }
        mark(&mut self.words, number);
        Ok(())
    }

    /// Whether so many numbers would be more than a quarter of the bits. Then many others are marked too; nothing else rests on it.
    pub(crate) fn is_crowded(&self, count: usize) -> bool {
        count / 16 > self.words.len()
    }
}

// A number is marked from now on, and so are those that were.
fn mark(words: &mut [u64], number: u32)
    requires { 0 < length words.old }
    ensures put { is_marked words.new number ≡ true }
    ensures kept { (q : ℕ) → is_marked words.old q ≡ true → is_marked words.new q ≡ true }
{
    let place = place_of(words.len(), number);
    words[place] |= 1 << bit_of(number);
}

// Which word among so many has the bit of a number.
#[inline(always)]
#[tactic(auto, unfolding(crate::specs::Filter::place_of))]
fn place_of(len: usize, number: u32) -> usize
    requires { 0 < len }
    ensures same { result ≡ place_of len number }
    ensures within { result < len }
{
    (u64::from(number).wrapping_mul(FACTOR) >> 46) as usize & (len - 1)
}

// Which bit of its word it is.
#[inline(always)]
#[tactic(auto, unfolding(crate::specs::Filter::bit_of))]
fn bit_of(number: u32) -> u32
    ensures same { result ≡ bit_of number }
    ensures within { result < 64 }
{
    ((u64::from(number).wrapping_mul(FACTOR) >> 40) % 64) as u32
}
