//! The entries of a map, one after another.
ghost use Rattle.std.specs.Prelude.{◌≡◌};
ghost use Rattle.std.specs.Iterator.{YieldsFirstBy, item_count};
ghost use Rattle.sorted_map.specs.Joined.{joined};

use crate::chunk::Chunk;
use std::marker::Model;

/// The entries of a map, by rising key. Each takes a step, and so does each chunk.
#[derive(Drop)]
pub struct Iter<'a, K, V> {
    // the keys that are left of the chunk that is gone through
    keys: &'a [K],
    // and their values
    values: &'a [V],
    // the chunks behind it
    chunks: &'a [Chunk<K, V>],
}

impl<'a, K, V> Model for Iter<'a, K, V> {
    ghost use Rattle.std.specs.Prelude.{List, ◌≡◌, ◌++◌, length};
    ghost use Rattle.std.specs.List.{zip};
    ghost use Rattle.sorted_map.specs.Joined.{joined};

    ghost Value = { List (K × V) };

    ghost view = { λ i. zip i.keys.now i.values.now ++ joined i.chunks.now };

    ghost invariant = { λ i. length i.values.now ≡ length i.keys.now };
}

impl<'a, K, V> Iter<'a, K, V> {
    // The entries of these chunks.
    pub(crate) fn of(chunks: &'a [Chunk<K, V>]) -> Iter<'a, K, V>
        ensures { result ≡ joined chunks.now }
    {
        Iter {
            keys: &[],
            values: &[],
            chunks,
        }
    }
}

impl<'a, K, V> Iterator for Iter<'a, K, V> {
    type Item = (&'a K, &'a V);

    ghost next_gives = { YieldsFirstBy (λ e. (e.0.now, e.1.now)) (λ left. left) };

    ghost remaining = { item_count (λ left. left) };

    #[inline(always)]
    fn next(&mut self) -> Option<(&'a K, &'a V)> {
        loop {
            if let ([key, keys @ ..], [value, values @ ..]) = (self.keys, self.values) {
                self.keys = keys;
                self.values = values;
                return Some((key, value));
            }
            match self.chunks {
                [] => return None,
                [first, rest @ ..] => {
                    self.keys = first.keys.as_slice();
                    self.values = first.values.as_slice();
                    self.chunks = rest;
                }
            }
        }
    }
}
