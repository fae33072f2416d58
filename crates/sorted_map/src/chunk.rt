//! One chunk: some entries, by rising key.
ghost use Rattle.std.specs.Prelude.{◌≡◌, ◌-◌, ◌<◌, ◌≤◌, [], ◌∷◌, ◌++◌, length, take, drop, IsTrue, IsFalse, IfOk, IfErr, OnOk, OnErr};
ghost use Rattle.std.specs.Prelude.{option_copied, option_map, slice_get};
ghost use Rattle.std.specs.BTreeMap.{insert_entry, is_at};
ghost use Rattle.std.specs.List.{insert};
ghost use Rattle.std.specs.List.Sorted.{IsStrictlySortedBy, IsSearchInRange};
ghost use Rattle.std.specs.Map.{keys_of, lookup, remove_entry, values_of};
ghost use Rattle.sorted_map.specs.Chunk.{AreBelow, BeginsWith, HasAt, IsGap};

use av_base::NoMemory;
use std::alloc::Global;
use std::marker::Model;

// Some entries, by rising key. That they rise is known to the map, so whoever calls says it.
#[derive(Drop)]
pub(crate) struct Chunk<K, V> {
    // apart from the values, so that neither is padded and a search reads keys alone
    pub(crate) keys: Vec<K>,
    // each at the place of its key
    pub(crate) values: Vec<V>,
}

impl<K, V> Model for Chunk<K, V> {
    ghost use Rattle.std.specs.Prelude.{List, ◌≡◌, length};
    ghost use Rattle.std.specs.List.{zip};

    ghost Value = { List (K × V) };

    ghost view = { λ c. zip c.keys.items c.values.items };

    ghost invariant = { λ c. length c.values.items ≡ length c.keys.items };
}

impl<K, V> Chunk<K, V> {
    // How many entries there are.
    pub(crate) fn len(&self) -> usize
        ensures { result ≡ length self.now }
    {
        self.keys.len()
    }

    // None at all. It takes no memory.
    pub(crate) fn none(alloc: Global) -> Chunk<K, V>
        ensures { result ≡ [] }
    {
        Chunk {
            keys: Vec::new(alloc),
            values: Vec::new(alloc),
        }
    }

    // The keys, which rise.
    pub(crate) fn keys(&self) -> &[K]
        ensures { result.now ≡ keys_of self.now }
    {
        &self.keys
    }

    // The values, in the order of their keys.
    pub(crate) fn values(&self) -> &[V]
        ensures { result.now ≡ values_of self.now }
    {
        &self.values
    }

    // The last entry.
    pub(crate) fn last(&self) -> Option<(&K, &V)>
        ensures { option_map (λ e. (e.0.now, e.1.now)) result
            ≡ slice_get self.now (length self.now - 1) }
    {
        let len = self.keys.len();
        if len == 0 {
            return None;
        }
        Some((&self.keys[len - 1], &self.values[len - 1]))
    }

    // Takes over all entries of another chunk, where there is room for them. It takes no memory.
    pub(crate) fn take_over(&mut self, upper: &mut Chunk<K, V>) -> bool
        ensures moved { IsTrue result → self.new ≡ self.old ++ upper.old }
        ensures kept { IsFalse result → (self.new ≡ self.old) × (upper.new ≡ upper.old) }
    {
        let more = upper.keys.len();
        let room = self.keys.capacity() - self.keys.len();
        if room < more || self.values.capacity() - self.values.len() < more {
            return false;
        }
        let _keys = self.keys.append(&mut upper.keys);
        let _values = self.values.append(&mut upper.values);
        true
    }
}

impl<K: Copy, V> Chunk<K, V> {
    // The first key.
    pub(crate) fn first(&self) -> K
        requires { 0 < length self.now }
        ensures { BeginsWith result self.now }
    {
        self.keys[0]
    }
}

impl<K: Ord, V> Chunk<K, V> {
    // Whether all keys are below this one.
    #[inline(always)]
    pub(crate) fn is_below(&self, key: &K) -> bool
        requires { IsStrictlySortedBy K.cmp (keys_of self.now) }
        ensures { IsTrue result → AreBelow K.cmp key.now self.now }
    {
        match self.keys.last() {
            None => true,
            Some(last) => key.cmp(last).is_gt(),
        }
    }

    // Whether a key has a value. It decides only whether a full chunk is halved, so no contract needs the answer.
    pub(crate) fn has(&self, key: &K) -> bool
        requires { IsStrictlySortedBy K.cmp (keys_of self.now) }
    {
        search(&self.keys, key).is_ok()
    }

    // The value of a key.
    pub(crate) fn get(&self, key: &K) -> Option<&V>
        requires { IsStrictlySortedBy K.cmp (keys_of self.now) }
        ensures { option_copied result ≡ lookup (is_at (K.cmp key.now)) self.now }
    {
        match search(&self.keys, key) {
            Ok(at) => Some(&self.values[at]),
            Err(_) => None,
        }
    }
}

impl<K: Ord + Copy, V: Copy> Chunk<K, V> {
    // One entry, with room for so many in all.
    pub(crate) fn of_one(
        alloc: Global,
        key: K,
        value: V,
        room: usize,
    ) -> Result<Chunk<K, V>, NoMemory>
        ensures { IfOk result (λ c. c ≡ (key, value) ∷ []) }
    {
        let mut keys = Vec::with_capacity(alloc, room)?;
        let mut values = Vec::with_capacity(alloc, room)?;
        keys.push(key)?;
        values.push(value)?;
        Ok(Chunk { keys, values })
    }

    // The entries from this place on once more, with room for no others.
    pub(crate) fn copy_from(&self, alloc: Global, at: usize) -> Result<Chunk<K, V>, NoMemory>
        requires { at ≤ length self.now }
        ensures { IfOk result (λ c. c ≡ drop at self.now) }
    {
        let (_, keys) = self.keys.split_at(at);
        let (_, values) = self.values.split_at(at);
        Ok(Chunk {
            keys: Vec::from_slice(alloc, keys)?,
            values: Vec::from_slice(alloc, values)?,
        })
    }

    // The entries before this place stay, and the others go.
    pub(crate) fn truncate(&mut self, at: usize)
        ensures { self.new ≡ take at self.old }
    {
        self.keys.truncate(at);
        self.values.truncate(at);
    }

    // One entry more at the end. Where there was no memory for the value, the key goes again, so that nothing changed.
    #[inline(always)]
    pub(crate) fn push(&mut self, key: K, value: V) -> Result<(), NoMemory>
        ensures pushed { OnOk result (self.new ≡ self.old ++ (key, value) ∷ []) }
        ensures same { OnErr result (self.new ≡ self.old) }
    {
        self.keys.push(key)?;
        match self.values.push(value) {
            Ok(()) => Ok(()),
            Err(_) => {
                self.keys.pop();
                Err(NoMemory)
            }
        }
    }

    // Gives a key a value, and answers the one that it had. Where there was no memory, nothing changed.
    pub(crate) fn put(&mut self, key: K, value: V) -> Result<Option<V>, NoMemory>
        requires { IsStrictlySortedBy K.cmp (keys_of self.old) }
        ensures before { IfOk result (λ v. v ≡ lookup (is_at (K.cmp key)) self.old) }
        ensures put { OnOk result (self.new ≡ insert_entry K.cmp self.old key value) }
        ensures same { OnErr result (self.new ≡ self.old) }
    {
        match search(&self.keys, &key) {
            Ok(at) => {
                let before = self.values[at];
                self.values[at] = value;
                Ok(Some(before))
            }
            Err(at) => {
                self.insert_at(at, key, value)?;
                Ok(None)
            }
        }
    }

    // One entry more at this place. Where there is no memory for the value, the key goes again.
    fn insert_at(&mut self, at: usize, key: K, value: V) -> Result<(), NoMemory>
        requires { at ≤ length self.old }
        ensures inserted { OnOk result (self.new ≡ insert self.old at (key, value)) }
        ensures same { OnErr result (self.new ≡ self.old) }
    {
        self.keys.insert(at, key)?;
        match self.values.insert(at, value) {
            Ok(()) => Ok(()),
            Err(_) => {
                self.keys.remove(at);
                Err(NoMemory)
            }
        }
    }
}

impl<K: Ord + Copy, V: Drop> Chunk<K, V> {
    // Takes the value of a key out, where it has one. It takes no memory.
    pub(crate) fn remove(&mut self, key: &K) -> Option<V>
        requires { IsStrictlySortedBy K.cmp (keys_of self.old) }
        ensures before { result ≡ lookup (is_at (K.cmp key.now)) self.old }
        ensures removed { self.new ≡ remove_entry (is_at (K.cmp key.now)) self.old }
    {
        match search(&self.keys, key) {
            Ok(at) => {
                self.keys.remove(at);
                Some(self.values.remove(at))
            }
            Err(_) => None,
        }
    }
}

// The place of the key, or the one where it would go.
fn search<K: Ord>(keys: &[K], key: &K) -> Result<usize, usize>
    requires { IsStrictlySortedBy K.cmp keys.now }
    ensures within { IsSearchInRange result (length keys.now) }
    ensures found { IfOk result (HasAt K.cmp key.now keys.now) }
    ensures absent { IfErr result (IsGap K.cmp key.now keys.now) }
{
    if is_last(keys, key) {
        return Ok(keys.len() - 1);
    }
    keys.binary_search(key)
}

// Whether the key is the last one.
#[inline(always)]
fn is_last<K: Ord>(keys: &[K], key: &K) -> bool
    requires { IsStrictlySortedBy K.cmp keys.now }
    ensures here { IsTrue result → HasAt K.cmp key.now keys.now (length keys.now - 1) }
    ensures within { IsTrue result → 0 < length keys.now }
{
    match keys.last() {
        None => false,
        Some(last) => key.cmp(last).is_eq(),
    }
}
