//! Numbers by words of 64 bits, found without a seed: the same run each time, and whoever picks the words gains no more than the time of
//! an ordered map.
//!
//! The layers above use one contract: **a [`WordMap`] is a finite map from words to numbers**, in the words of std's `FinMap`:
//! [`WordMap::set`] makes `insert` of it, [`WordMap::remove`] `remove`, and [`WordMap::get`] looks up in it.
//!
//! A word lies in one of 16 slots that it alone determines, or else in an ordered map. Begin reading at [`WordMap`], then at
//! `specs/Slots.antt`, which says what map slots hold, and at `specs/Whole.antt`, which says what is always so of them. No proof rests on
//! which slots those are, nor on how many there are: only on a word's own slots being gone over in the same order each time, since a search
//! ends at the first of them that is blank.
#![tactic(auto)]

mod growing;
mod slot;
mod table;
mod window;
mod word_map;

pub use word_map::WordMap;
