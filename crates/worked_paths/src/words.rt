//! A map of words beside std's ordered map: thousands of words are set, replaced and removed in both, so that slots fill, double and are
//! left; words that rise, words that differ in their upper half alone, and words that all have the same 16 slots, so that most stand in the
//! ordered map beside these. Each call must answer the same.
use av_base::NoMemory;
use std::alloc::Global;
use std::collections::BTreeMap;
use word_map::WordMap;

// How many words there are.
const WORDS: u32 = 3_000;

// What times the factor by which slots are chosen is 1, so that the multiples of it below 2^32 have the same slots.
const COLLIDING: u64 = 0xF1DE_83E1_9937_733D;

// Both maps.
#[derive(Drop)]
struct Both {
    words: WordMap,
    // what the map of words should hold
    plain: BTreeMap<u64, u32>,
    // the n-th word is n times this
    factor: u64,
    // how many calls answered the same
    alike: u32,
}

impl Both {
    // Both without words.
    fn new(alloc: Global, factor: u64) -> Both {
        Both {
            words: WordMap::new(alloc),
            plain: BTreeMap::new(alloc),
            factor,
            alike: 0,
        }
    }

    // The n-th word.
    fn word(&self, n: u32) -> u64 {
        u64::from(n).wrapping_mul(self.factor)
    }

    // Counts a call that answered the same of both.
    fn count(&mut self, alike: bool) {
        self.alike = self.alike.saturating_add(u32::from(alike));
    }

    // Gives the words a number whose n has none of these bits.
    fn set_without(&mut self, bits: u32) -> Result<(), NoMemory> {
        for n in 0..WORDS {
            if n & bits == 0 {
                let word = self.word(n);
                let before = self.words.set(word, n)?;
                let wanted = self.plain.insert(word, n)?;
                self.count(before == wanted);
            }
        }
        Ok(())
    }

    // Gives each word that has a number another one.
    fn replace_all(&mut self) {
        for n in 0..WORDS {
            let word = self.word(n);
            let before = self.words.replace(word, n / 2);
            let mut wanted = None;
            if let Some(held) = self.plain.get_mut(&word) {
                wanted = Some(*held);
                *held = n / 2;
            }
            self.count(before == wanted);
        }
    }

    // Takes the numbers of the words whose n has none of these bits.
    fn remove_without(&mut self, bits: u32) {
        for n in 0..WORDS {
            if n & bits == 0 {
                self.take(n);
            }
        }
    }

    // Whether both have the same number for the n-th word.
    fn has_same(&self, n: u32) -> bool {
        let word = self.word(n);
        self.words.get(word) == self.plain.get(&word).copied()
    }

    // Whether both have as many words.
    fn has_as_many(&self) -> bool {
        self.words.len() == self.plain.len()
    }

    // Gives the n-th word a number if it has none.
    fn put(&mut self, n: u32) -> Result<(), NoMemory> {
        let word = self.word(n);
        let before = self.words.put_if_absent(word, n)?;
        let wanted = self.plain.get(&word).copied();
        if wanted.is_none() {
            self.plain.insert(word, n)?;
        }
        self.count(before == wanted);
        Ok(())
    }

    // Takes the number of the n-th word.
    fn take(&mut self, n: u32) {
        let word = self.word(n);
        let before = self.words.remove(word);
        let wanted = self.plain.remove(&word);
        self.count(before == wanted);
    }

    // Looks up each word in both.
    fn compare(&mut self) {
        for n in 0..WORDS {
            let alike = self.has_same(n);
            self.count(alike);
        }
        let alike = self.has_as_many();
        self.count(alike);
    }
}

// All come, each second one goes, the others get another number, each fourth one comes again, and all go.
fn replayed(alloc: Global, factor: u64) -> Result<u32, NoMemory> {
    let mut both = Both::new(alloc, factor);
    both.set_without(0)?;
    both.compare();
    both.remove_without(1);
    both.replace_all();
    both.compare();
    both.set_without(3)?;
    both.compare();
    both.remove_without(0);
    both.compare();
    Ok(both.alike)
}

#[test]
fn words(rt: HostRuntime) -> Result<(), NoMemory> {
    for factor in [1, 0x1_0000_0000, COLLIDING] {
        let alike = replayed(rt.alloc(), factor)?;
        assert!(rt; alike == 23_254, "{factor}: {alike}");
    }
    Ok(())
}

// A thousand words come; then one goes for each that comes, so that the slots are cleared of marks; and those that stand are put once more.
fn churned(alloc: Global, factor: u64) -> Result<u32, NoMemory> {
    let mut both = Both::new(alloc, factor);
    for n in 0..1_000 {
        both.put(n)?;
    }
    for n in 1_000..WORDS {
        both.take(n - 1_000);
        both.put(n)?;
    }
    both.compare();
    for n in 0..WORDS {
        both.put(n)?;
    }
    both.compare();
    Ok(both.alike)
}

#[test]
fn churned_words(rt: HostRuntime) -> Result<(), NoMemory> {
    for factor in [1, 0x1_0000_0000, 0x5851_F42D_4C95_7F2D, COLLIDING] {
        let alike = churned(rt.alloc(), factor)?;
        assert!(rt; alike == 14_002, "{factor}: {alike}");
    }
    Ok(())
}

// One of the words that have the same slots.
fn colliding(n: u64) -> u64 {
    n.wrapping_mul(COLLIDING)
}

// 16 words fill the slots that they share, and the next one lies beside these.
#[test]
fn full_slots(rt: HostRuntime) -> Result<(), NoMemory> {
    let mut words = WordMap::new(rt.alloc());
    for n in 0..17 {
        assert!(rt; words.set(colliding(n), n as u32)?.is_none());
    }
    for n in 0..17 {
        assert!(rt; words.get(colliding(n)) == Some(n as u32));
    }
    assert!(rt; words.near(colliding(0)) == Some(0));
    assert!(rt; words.near(colliding(1)) == Some(1));
    assert!(rt; words.near(colliding(2)).is_none());
    assert!(rt; words.get(colliding(17)).is_none());
    assert!(rt; words.remove(colliding(3)) == Some(3));
    assert!(rt; words.get(colliding(3)).is_none());
    assert!(rt; words.get(colliding(15)) == Some(15));
    assert!(rt; words.put_if_absent(colliding(16), 7)? == Some(16));
    assert!(rt; words.put_if_absent(colliding(17), 17)?.is_none());
    assert!(rt; words.get(colliding(17)) == Some(17));
    assert!(rt; words.remove(colliding(16)) == Some(16));
    assert!(rt; words.get(colliding(16)).is_none());
    assert!(rt; words.len() == 16);
    Ok(())
}

// For the greatest number there is no memory, and no number is put where there is none.
#[test]
fn refuses_numbers(rt: HostRuntime) -> Result<(), NoMemory> {
    let mut words = WordMap::new(rt.alloc());
    assert!(rt; words.set(7, u32::MAX).is_err());
    assert!(rt; words.replace(7, 1).is_none());
    assert!(rt; words.put_if_absent(7, u32::MAX).is_err());
    assert!(rt; words.set(7, u32::MAX - 1)?.is_none());
    assert!(rt; words.get(7) == Some(u32::MAX - 1));
    assert!(rt; words.put_if_absent(7, u32::MAX)? == Some(u32::MAX - 1));
    assert!(rt; words.len() == 1);
    Ok(())
}
