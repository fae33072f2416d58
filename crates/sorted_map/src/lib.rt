//! A sorted map that is held in chunks, so that an entry takes little more than the bytes of its key and its value.
//!
//! The layers above see the list of its entries and use the words of std's maps: **[`Sorted::insert`] makes `insert_entry` of that list
//! and [`Sorted::remove`] `remove_entry`, [`Sorted::get`] looks up in it, and [`Sorted::iter`] gives it.** Keys are of any type that is
//! `Ord` and `Copy`. Values are of any type that is `Copy`, or for all but `insert` and `push_values` of any type.
//!
//! Begin reading at [`Sorted`], and then at `specs/Joined.antt`, which says how chunks are one list. That the keys rise is said of that
//! list alone, and of no chunk: so each step on chunks only has to show what it makes of the list.
#![tactic(auto)]

mod chunk;
mod chunks;
mod iter;
mod sorted;

pub use iter::Iter;
pub use sorted::Sorted;
