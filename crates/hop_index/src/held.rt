//! How a set of numbers is held: a few of them by themselves, some in a list, and many in chunks.
ghost use Rattle.std.specs.Prelude.{◌≡◌, ◌∷◌, [], OnOk, OnErr, IfOk};
ghost use Rattle.std.specs.BTreeMap.{is_at};
ghost use Rattle.std.specs.BTreeSet.{insert_key};
ghost use Rattle.std.specs.List.Sorted.{IsStrictlySortedBy};
ghost use Rattle.std.specs.Ordering.{nat_cmp};
ghost use Rattle.std.specs.Set.{remove_key};
ghost use Rattle.hop_index.specs.Held.{numbers_held};

use crate::{chunked, listed};
use av_base::NoMemory;
use sorted_map::Sorted;
use std::alloc::Global;
use std::cmp::Ordering;

// The most numbers of a list. More would move more bytes where one comes between others. It is the length of a full chunk.
const MOST_LISTED: usize = 512;

// The numbers of a set, rising. It takes 16 bytes. A set that once had four numbers has a list from then on, which takes 24 bytes, and
// 4 to 8 for each of the most numbers that it had. One that once had more than 512 has chunks from then on, which take 4 bytes a number
// where they came in order and up to 16 else, and some 2300 more.
#[derive(Drop)]
pub(crate) enum Held {
    Empty,
    One(u32),
    Two(u32, u32),
    Three(u32, u32, u32),
    Listed(Box<Vec<u32>>),
    Many(Box<Sorted<u32, ()>>),
}

// One number more, where it isn't there yet.
pub(crate) fn insert(held: &mut Held, alloc: Global, number: u32) -> Result<(), NoMemory>
    requires rising { IsStrictlySortedBy nat_cmp (numbers_held held.old) }
    ensures inserted { OnOk result (numbers_held held.new
        ≡ insert_key nat_cmp (numbers_held held.old) number) }
    ensures kept { OnErr result (numbers_held held.new ≡ numbers_held held.old) }
{
    let more = match held {
        Held::Empty => Held::One(number),
        Held::One(a) => one_and(*a, number),
        Held::Two(a, b) => two_and(*a, *b, number),
        Held::Three(a, b, c) => three_and(alloc, *a, *b, *c, number)?,
        Held::Listed(numbers) => {
            if numbers.len() < MOST_LISTED {
                return listed::insert(numbers, number);
            }
            many_and(alloc, numbers, number)?
        }
        Held::Many(numbers) => return chunked::insert(numbers, number),
    };
    *held = more;
    Ok(())
}

// One number less, if it is there. It takes no memory.
pub(crate) fn remove(held: &mut Held, number: u32)
    requires rising { IsStrictlySortedBy nat_cmp (numbers_held held.old) }
    ensures { numbers_held held.new
        ≡ remove_key (is_at (nat_cmp number)) (numbers_held held.old) }
{
    let fewer = match held {
        Held::Empty => Held::Empty,
        Held::One(a) => one_without(*a, number),
        Held::Two(a, b) => two_without(*a, *b, number),
        Held::Three(a, b, c) => three_without(*a, *b, *c, number),
        Held::Listed(numbers) => {
            listed::remove(numbers, number);
            return;
        }
        Held::Many(numbers) => {
            chunked::remove(numbers, number);
            return;
        }
    };
    *held = fewer;
}

// One number, and another one where it isn't the same.
fn one_and(a: u32, number: u32) -> Held
    ensures { numbers_held result ≡ insert_key nat_cmp (a ∷ []) number }
{
    match number.cmp(&a) {
        Ordering::Less => Held::Two(number, a),
        Ordering::Equal => Held::One(a),
        Ordering::Greater => Held::Two(a, number),
    }
}

// Two numbers, which rise, and another one where it is neither of them.
fn two_and(a: u32, b: u32, number: u32) -> Held
    ensures { numbers_held result ≡ insert_key nat_cmp (a ∷ b ∷ []) number }
{
    match number.cmp(&a) {
        Ordering::Less => Held::Three(number, a, b),
        Ordering::Equal => Held::Two(a, b),
        Ordering::Greater => match number.cmp(&b) {
            Ordering::Less => Held::Three(a, number, b),
            Ordering::Equal => Held::Two(a, b),
            Ordering::Greater => Held::Three(a, b, number),
        },
    }
}

// Three numbers, which rise, and another one where it is none of them.
fn three_and(alloc: Global, a: u32, b: u32, c: u32, number: u32) -> Result<Held, NoMemory>
    requires rising { IsStrictlySortedBy nat_cmp (a ∷ b ∷ c ∷ []) }
    ensures { IfOk result (λ held. numbers_held held
        ≡ insert_key nat_cmp (a ∷ b ∷ c ∷ []) number) }
{
    if number == a || number == b || number == c {
        return Ok(Held::Three(a, b, c));
    }
    let mut numbers = Vec::with_capacity(alloc, 4)?;
    numbers.push(a)?;
    numbers.push(b)?;
    numbers.push(c)?;
    listed::insert(&mut numbers, number)?;
    Ok(Held::Listed(Box::new(alloc, numbers)?))
}

// Many numbers, which rise, and another one where it is none of them.
fn many_and(alloc: Global, numbers: &[u32], number: u32) -> Result<Held, NoMemory>
    requires rising { IsStrictlySortedBy nat_cmp numbers.now }
    ensures { IfOk result (λ held. numbers_held held ≡ insert_key nat_cmp numbers.now number) }
{
    let mut many = chunked::of(alloc, numbers)?;
    chunked::insert(&mut many, number)?;
    Ok(Held::Many(Box::new(alloc, many)?))
}

// One number, unless it is this one.
fn one_without(a: u32, number: u32) -> Held
    ensures { numbers_held result ≡ remove_key (is_at (nat_cmp number)) (a ∷ []) }
{
    if number.cmp(&a).is_eq() {
        Held::Empty
    } else {
        Held::One(a)
    }
}

// Two numbers but for this one.
fn two_without(a: u32, b: u32, number: u32) -> Held
    ensures { numbers_held result ≡ remove_key (is_at (nat_cmp number)) (a ∷ b ∷ []) }
{
    if number.cmp(&a).is_eq() {
        Held::One(b)
    } else if number.cmp(&b).is_eq() {
        Held::One(a)
    } else {
        Held::Two(a, b)
    }
}

// Three numbers but for this one.
fn three_without(a: u32, b: u32, c: u32, number: u32) -> Held
    ensures { numbers_held result ≡ remove_key (is_at (nat_cmp number)) (a ∷ b ∷ c ∷ []) }
{
    if number.cmp(&a).is_eq() {
        Held::Two(b, c)
    } else if number.cmp(&b).is_eq() {
        Held::Two(a, c)
    } else if number.cmp(&c).is_eq() {
        Held::Two(a, b)
    } else {
        Held::Three(a, b, c)
    }
}
