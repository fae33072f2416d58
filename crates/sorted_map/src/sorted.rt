//! The map.
ghost use Rattle.std.specs.Prelude.{◌≡◌, ◌-◌, ◌<◌, ◌^◌, ◌++◌, [], length, slice_get, IfOk, OnOk, OnErr, option_copied, option_map};
ghost use Rattle.std.specs.BTreeMap.{insert_entry, is_at};
ghost use Rattle.std.specs.List.Sorted.{IsStrictlySortedBy};
ghost use Rattle.std.specs.Map.{keys_of, lookup, remove_entry, values_of};

use crate::chunks::Chunks;
use crate::iter::Iter;
use av_base::NoMemory;
use std::alloc::Global;
use std::marker::Model;

// How many entries there may be: their number is that of a `Vec`'s elements at most.
const MOST_ENTRIES: usize = 0x7fff_ffff_ffff_ffff;

/// A value for each key, by rising key, in chunks of at most 512 entries, with the first keys of all chunks beside them. Where keys come in
/// order, an entry takes the bytes of its key and of its value and hardly more. Else chunks are less full, but two side by side that have
/// at most 256 entries become one when an entry goes: so there is room for at most four times the entries, and for one chunk more.
/// To find a key takes two binary searches, among the first keys and within one chunk.
#[derive(Drop)]
pub struct Sorted<K: Ord, V> {
    alloc: Global,
    // by rising key, none of them empty, as the invariant says
    chunks: Chunks<K, V>,
    // how many entries there are
    len: usize,
}

impl<K: Ord, V> Model for Sorted<K, V> {
    ghost use Rattle.std.specs.Prelude.{List};
    ghost use Rattle.sorted_map.specs.Joined.{joined, AreChunks};

    ghost Value = { List (K × V) };

    ghost view = { λ m. joined m.chunks };

    ghost invariant = { λ m. AreChunks K.cmp m.chunks m.len };
}

impl<K: Ord, V> Sorted<K, V> {
    /// A map of no entries. It takes no memory.
    pub fn new(alloc: Global) -> Sorted<K, V>
        ensures { result ≡ [] }
    {
        Sorted {
            alloc,
            chunks: Chunks::new(alloc),
            len: 0,
        }
    }

    /// How many entries there are.
    pub fn len(&self) -> usize
        ensures len { result ≡ length self.now }
        ensures few { result < 2 ^ 63 }
        ensures in_order { IsStrictlySortedBy K.cmp (keys_of self.now) }
    {
        self.len
    }

    /// The value of a key; `None` exactly where it has none.
    pub fn get(&self, key: &K) -> Option<&V>
        ensures { option_copied result ≡ lookup (is_at (K.cmp key.now)) self.now }
    {
        self.chunks.get(key)
    }

    /// The last entry, which has the greatest key; `None` exactly where there is no entry. It takes no search.
    pub fn last(&self) -> Option<(&K, &V)>
        ensures { option_map (λ e. (e.0.now, e.1.now)) result
            ≡ slice_get self.now (length self.now - 1) }
    {
        self.chunks.last()
    }

    /// All entries, by rising key.
    pub fn iter(&self) -> Iter<'_, K, V>
        ensures { result ≡ self.now }
    {
        Iter::of(self.chunks.as_slice())
    }
}

impl<K: Ord, V: Copy> Sorted<K, V> {
    /// Appends all values, by rising key. It takes a step for each chunk, and one copy of the bytes of its values; no key is read. It takes
    /// memory only where `into` has no room. Where there was none, some values may have been appended.
    pub fn push_values(&self, into: &mut Vec<V>) -> Result<(), NoMemory>
        ensures { OnOk result (into.new.items ≡ into.old.items ++ values_of self.now) }
    {
        for chunk in self.chunks.as_slice() {
            into.extend_from_slice(chunk.values())?;
        }
        Ok(())
    }
}

impl<K: Ord + Copy, V> Sorted<K, V> {
    /// Appends all keys, rising. It takes a step for each chunk, and one copy of the bytes of its keys; no value is read. It takes memory only
    /// where `into` has no room. Where there was none, some keys may have been appended.
    pub fn push_keys(&self, into: &mut Vec<K>) -> Result<(), NoMemory>
        ensures { OnOk result (into.new.items ≡ into.old.items ++ keys_of self.now) }
    {
        for chunk in self.chunks.as_slice() {
            into.extend_from_slice(chunk.keys())?;
        }
        Ok(())
    }
}

impl<K: Ord + Copy, V: Copy> Sorted<K, V> {
    /// Gives a key a value, and answers the one that it had. Where there was no memory, nothing changed. A key above all others goes to the
    /// end at once; else a new one takes its look-up and a move of at most 512 entries, and where it finds its chunk full, that is halved
    /// and the list of chunks moves.
    #[inline(always)]
    pub fn insert(&mut self, key: K, value: V) -> Result<Option<V>, NoMemory>
        ensures before { IfOk result (λ v. v ≡ lookup (is_at (K.cmp key)) self.old) }
        ensures inserted { OnOk result (self.new ≡ insert_entry K.cmp self.old key value) }
        ensures same { OnErr result (self.new ≡ self.old) }
    {
        if self.len == MOST_ENTRIES {
            return Err(NoMemory);
        }
        let before = self.chunks.put(self.alloc, key, value)?;
        self.len += usize::from(before.is_none());
        Ok(before)
    }
}

impl<K: Ord + Copy, V: Drop> Sorted<K, V> {
    /// Takes the value of a key out, where it has one, and answers it. It takes no memory. It takes the time of a look-up and of a move of at
    /// most 512 entries; where a chunk's last entry goes, or two chunks become one, the list of chunks moves. What a chunk took is given back
    /// then. The last entry of all goes with no move.
    pub fn remove(&mut self, key: &K) -> Option<V>
        ensures before { result ≡ lookup (is_at (K.cmp key.now)) self.old }
        ensures removed { self.new ≡ remove_entry (is_at (K.cmp key.now)) self.old }
    {
        let before = self.chunks.take(self.alloc, key);
        self.len -= usize::from(before.is_some());
        before
    }
}
