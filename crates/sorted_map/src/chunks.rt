//! The chunks of a map: to which of them a key belongs, and one entry more or less there.
ghost use Rattle.std.specs.Prelude.{◌≡◌, ◌≢◌, ◌+◌, ◌-◌, ◌<◌, ◌≤◌, [], ◌∷◌, ◌++◌, length, take, slice_get, slice_index_or, slice_set, option_map};
ghost use Rattle.std.specs.Prelude.{IsTrue, IsFalse, IfOk, OnOk, OnErr, option_copied};
ghost use Rattle.std.specs.BTreeMap.{insert_entry, is_at};
ghost use Rattle.std.specs.List.{insert};
ghost use Rattle.std.specs.List.Sorted.{IsStrictlySortedBy};
ghost use Rattle.std.specs.Map.{keys_of, lookup};
ghost use Rattle.sorted_map.specs.Chunk.{AreBelow};
ghost use Rattle.sorted_map.specs.Joined.{joined, value_at, AreInOrder, IsPlace, Puts, TakesOut};

use crate::chunk::Chunk;
use av_base::NoMemory;
use std::alloc::Global;
use std::marker::Model;
use std::mem;

// The most entries of a chunk. More would move more bytes where one comes between others, and fewer would make the list of chunks longer.
const MOST: usize = 512;

// The most entries of two chunks side by side that become one. It is half a chunk, so that neither this nor a halving comes again soon.
const FEW: usize = MOST / 2;

// Some chunks, none of them empty. That their keys rise is known to the map, so whoever calls says it.
#[derive(Drop)]
pub(crate) struct Chunks<K, V> {
    // the first key of each chunk, side by side, so that a search among them reads nothing else
    firsts: Vec<K>,
    // each at the place of its first key
    list: Vec<Chunk<K, V>>,
}

impl<K, V> Model for Chunks<K, V> {
    ghost use Rattle.std.specs.Prelude.{List};
    ghost use Rattle.sorted_map.specs.Joined.{AreFirsts};

    ghost Value = { List (List (K × V)) };

    ghost view = { λ c. c.list.items };

    ghost invariant = { λ c. AreFirsts c.firsts.items c.list.items };
}

impl<K, V> Chunks<K, V> {
    // None at all. It takes no memory.
    pub(crate) fn new(alloc: Global) -> Chunks<K, V>
        ensures { result ≡ [] }
    {
        Chunks {
            firsts: Vec::new(alloc),
            list: Vec::new(alloc),
        }
    }

    // All of them.
    pub(crate) fn as_slice(&self) -> &[Chunk<K, V>]
        ensures { result.now ≡ self.now }
    {
        &self.list
    }

    // The last entry of all.
    pub(crate) fn last(&self) -> Option<(&K, &V)>
        ensures { option_map (λ e. (e.0.now, e.1.now)) result
            ≡ slice_get (joined self.now) (length (joined self.now) - 1) }
    {
        match self.list.last() {
            None => None,
            Some(chunk) => chunk.last(),
        }
    }
}

impl<K: Ord, V> Chunks<K, V> {
    // The chunk that a key belongs to.
    fn place(&self, key: &K) -> usize
        requires in_order { AreInOrder K.cmp self.now }
        requires some { 0 < length self.now }
        ensures { IsPlace K.cmp key.now self.now result }
    {
        if self.is_in_last(key) {
            return self.list.len() - 1;
        }
        self.place_among(key)
    }

    // The same by a search. It isn't inlined, for keys often come and go at the end.
    #[inline(never)]
    fn place_among(&self, key: &K) -> usize
        requires in_order { AreInOrder K.cmp self.now }
        requires some { 0 < length self.now }
        ensures { IsPlace K.cmp key.now self.now result }
    {
        self.firsts
            .partition_point(|first| key.cmp(first).is_ge())
            .saturating_sub(1)
    }

    // Whether a key belongs to the last chunk.
    #[inline(always)]
    fn is_in_last(&self, key: &K) -> bool
        requires { AreInOrder K.cmp self.now }
        ensures { IsTrue result → IsPlace K.cmp key.now self.now (length self.now - 1) }
    {
        match self.firsts.last() {
            None => false,
            Some(first) => key.cmp(first).is_ge(),
        }
    }

    // Whether all keys are below this one.
    #[inline(always)]
    fn are_below(&self, key: &K) -> bool
        requires in_order { AreInOrder K.cmp self.now }
        ensures below { IsTrue result → AreBelow K.cmp key.now (joined self.now) }
        ensures some { IsFalse result → 0 < length self.now }
    {
        match self.list.last() {
            None => true,
            Some(chunk) => chunk.is_below(key),
        }
    }

    // The value of a key.
    pub(crate) fn get(&self, key: &K) -> Option<&V>
        requires { AreInOrder K.cmp self.now }
        ensures { option_copied result ≡ value_at K.cmp self.now key.now }
    {
        if self.list.is_empty() {
            return None;
        }
        self.list[self.place(key)].get(key)
    }
}

impl<K: Ord + Copy, V: Copy> Chunks<K, V> {
    // Gives a key a value, and answers the one that it had. Where there was no memory, the entries are the same.
    #[inline(always)]
    pub(crate) fn put(&mut self, alloc: Global, key: K, value: V) -> Result<Option<V>, NoMemory>
        requires { AreInOrder K.cmp self.old }
        ensures before { IfOk result (λ v. v ≡ value_at K.cmp self.old key) }
        ensures put { OnOk result (Puts K.cmp self.old key value self.new) }
        ensures same { OnErr result (joined self.new ≡ joined self.old) }
    {
        if self.are_below(&key) {
            self.append(alloc, key, value)?;
            return Ok(None);
        }
        self.put_within(alloc, key, value)
    }

    // One entry more at the end.
    #[inline(always)]
    fn append(&mut self, alloc: Global, key: K, value: V) -> Result<(), NoMemory>
        ensures appended { OnOk result (joined self.new ≡ joined self.old ++ (key, value) ∷ []) }
        ensures same { OnErr result (joined self.new ≡ joined self.old) }
    {
        let len = self.list.len();
        if len > 0 && self.list[len - 1].len() < MOST {
            return self.list[len - 1].push(key, value);
        }
        self.append_chunk(alloc, key, value)
    }

    // One entry more in a chunk behind the others. A further chunk has its whole room from the start: where keys rise it will be full. The
    // first one grows.
    #[inline(never)]
    fn append_chunk(&mut self, alloc: Global, key: K, value: V) -> Result<(), NoMemory>
        ensures appended { OnOk result (joined self.new ≡ joined self.old ++ (key, value) ∷ []) }
        ensures same { OnErr result (joined self.new ≡ joined self.old) }
    {
        let len = self.list.len();
        let room = if len > 0 { MOST } else { 0 };
        let chunk = Chunk::of_one(alloc, key, value, room)?;
        self.insert_chunk(len, chunk)
    }

    // Gives a key a value that doesn't go to the end.
    #[inline(never)]
    fn put_within(&mut self, alloc: Global, key: K, value: V) -> Result<Option<V>, NoMemory>
        requires in_order { AreInOrder K.cmp self.old }
        requires some { 0 < length self.old }
        ensures before { IfOk result (λ v. v ≡ value_at K.cmp self.old key) }
        ensures put { OnOk result (Puts K.cmp self.old key value self.new) }
        ensures same { OnErr result (joined self.new ≡ joined self.old) }
    {
        let at = self.place_with_room(alloc, &key)?;
        let before = self.list[at].put(key, value);
        self.firsts[at] = self.list[at].first();
        before
    }

    // The chunk that a key belongs to, once it has room for the key: a full one is halved, unless the key is there.
    fn place_with_room(&mut self, alloc: Global, key: &K) -> Result<usize, NoMemory>
        requires in_order { AreInOrder K.cmp self.old }
        requires some { 0 < length self.old }
        ensures place { IfOk result (IsPlace K.cmp key.now self.new) }
        ensures same { joined self.new ≡ joined self.old }
    {
        let at = self.place(key);
        if self.list[at].len() < MOST || self.list[at].has(key) {
            return Ok(at);
        }
        self.halve(alloc, at)?;
        Ok(self.place(key))
    }

    // Makes two chunks of one. The upper half is there twice before the chunk is cut, so that want of memory loses nothing.
    fn halve(&mut self, alloc: Global, at: usize) -> Result<(), NoMemory>
        requires { at < length self.old }
        ensures same { joined self.new ≡ joined self.old }
        ensures some { 0 < length self.new }
    {
        let len = self.list[at].len();
        if len < 2 {
            return Ok(());
        }
        let upper = self.list[at].copy_from(alloc, len / 2)?;
        self.insert_chunk(at + 1, upper)?;
        self.list[at].truncate(len / 2);
        Ok(())
    }

    // One chunk more at this place. Where there is no memory for it, its first key goes again.
    fn insert_chunk(&mut self, at: usize, chunk: Chunk<K, V>) -> Result<(), NoMemory>
        requires within { at ≤ length self.old }
        requires some { 0 < length chunk }
        ensures inserted { OnOk result (self.new ≡ insert self.old at chunk) }
        ensures same { OnErr result (self.new ≡ self.old) }
    {
        self.firsts.insert(at, chunk.first())?;
        match self.list.insert(at, chunk) {
            Ok(()) => Ok(()),
            Err(_) => {
                self.firsts.remove(at);
                Err(NoMemory)
            }
        }
    }
}

impl<K: Ord + Copy, V: Drop> Chunks<K, V> {
    // Takes the value of a key out, where it has one. A chunk goes with its last entry, or joins one beside it. It takes no memory.
    pub(crate) fn take(&mut self, alloc: Global, key: &K) -> Option<V>
        requires { AreInOrder K.cmp self.old }
        ensures before { result ≡ value_at K.cmp self.old key.now }
        ensures taken { TakesOut K.cmp self.old key.now self.new }
    {
        if self.list.is_empty() {
            return None;
        }
        let at = self.place(key);
        let before = self.list[at].remove(key);
        if self.list[at].len() == 0 {
            self.list.remove(at);
            self.firsts.remove(at);
            return before;
        }
        self.firsts[at] = self.list[at].first();
        self.thin_out(alloc, at);
        before
    }

    // Makes one chunk of this one and one beside it, where both together have few entries.
    fn thin_out(&mut self, alloc: Global, at: usize)
        requires { at < length self.old }
        ensures { joined self.new ≡ joined self.old }
    {
        let len = self.list[at].len();
        if len > FEW {
            return;
        }
        if at > 0 && self.list[at - 1].len() <= FEW - len {
            self.merge(alloc, at - 1);
        } else if at + 1 < self.list.len() && self.list[at + 1].len() <= FEW - len {
            self.merge(alloc, at);
        }
    }

    // Makes one chunk of this one and the next, where this one has room for that. All but a first one that never was full have it.
    fn merge(&mut self, alloc: Global, at: usize)
        requires { at + 1 < length self.old }
        ensures { joined self.new ≡ joined self.old }
    {
        let mut upper = mem::replace(&mut self.list[at + 1], Chunk::none(alloc));
        if self.list[at].take_over(&mut upper) {
            self.list.remove(at + 1);
            self.firsts.remove(at + 1);
        } else {
            self.list[at + 1] = upper;
        }
    }
}
