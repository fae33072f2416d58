//! Hops that are read ahead of their use. Nothing is promised of what is read; it is at hand afterwards for who needs it.
use crate::HopIndex;
use crate::gone::GoneHop;
use crate::hops::Hops;
use crate::lists::HopLists;
use crate::loose::Loose;
use crate::pair::Pair;
use path_model::AsList;

// How many hops are read together.
const MOST: usize = 64;

// How many chains are gone over together where their hops come to lists: at the beginning few of them are there.
const MOST_CHAINS: usize = 16;

/// The places of hops whose cases will get more, or fewer, so that where many come one after another memory is waited for once and not for
/// each hop: first all are looked up, then all are read. At most 64 are kept. Nothing is promised of them.
#[derive(Drop)]
pub struct HopsAhead {
    places: [u32; MOST],
    len: usize,
}

impl HopsAhead {
    /// No hops.
    #[inline(always)]
    pub fn none() -> HopsAhead {
        HopsAhead {
            places: [u32::MAX; MOST],
            len: 0,
        }
    }

    /// The hops of a chain come that are found with one look, as most are, as long as there is room.
    pub fn look_up(&mut self, index: &HopIndex, chain: &AsList) {
        if let Some(hops) = index.hops() {
            self.look_up_chain(hops, chain.as_slice());
        }
    }

    // The hops of a chain come that are found with one look, as long as there is room.
    fn look_up_chain(&mut self, hops: &Hops, chain: &[u32]) {
        let mut last = None;
        for asn in chain {
            if self.len == MOST {
                return;
            }
            if let Some(before) = last {
                self.put(hops.near(Pair::of(before, *asn)));
            }
            last = Some(*asn);
        }
    }

    // The hops of some chains from a case on come, as long as there is room. The number of the case behind them is answered; nothing is promised of
    // it.
    fn look_up_loose(&mut self, hops: &Hops, loose: &Loose, from: usize) -> usize {
        for case in from..loose.len() {
            if self.len == MOST || case.wrapping_sub(from) == MOST_CHAINS {
                return case;
            }
            self.look_up_chain(hops, loose.get(case));
        }
        loose.len()
    }

    // One place more, while there is room. No branch waits for the look that gave it.
    #[inline(always)]
    fn put(&mut self, place: Option<u32>) {
        if let Some(slot) = self.places.get_mut(self.len) {
            *slot = place.unwrap_or(u32::MAX);
            self.len = self.len.wrapping_add(usize::from(place.is_some()));
        }
    }

    /// Reads what stands at the places. The number answered says nothing: it is made of all that was read.
    pub fn read(&self, index: &HopIndex) -> usize {
        match index.hops() {
            None => 0,
            Some(hops) => self.read_from(hops),
        }
    }

    // Hops that will go come that are found with one look, each once where they stand by their two ASes, as long as there is room. The
    // number of those that were gone over is answered; nothing is promised of it.
    fn look_up_gone(&mut self, hops: &Hops, gone: &[GoneHop]) -> usize {
        let mut over: usize = 0;
        let mut last = None;
        for hop in gone {
            if self.len == MOST {
                return over;
            }
            if last != Some(hop.pair) {
                self.put(hops.near(hop.pair));
            }
            last = Some(hop.pair);
            over = over.wrapping_add(1);
        }
        over
    }

    // Reads what stands at the places.
    fn read_from(&self, hops: &Hops) -> usize {
        self.read_heads(hops).wrapping_add(self.read_ends(hops))
    }

    // Reads how the cases of each are held.
    fn read_heads(&self, hops: &Hops) -> usize {
        let mut sum: usize = 0;
        for place in self.places.iter().take(self.len) {
            sum = sum.wrapping_add(hops.head(*place));
        }
        sum
    }

    // Reads the last case of each.
    fn read_ends(&self, hops: &Hops) -> usize {
        let mut sum: usize = 0;
        for place in self.places.iter().take(self.len) {
            sum = sum.wrapping_add(hops.last(*place));
        }
        sum
    }
}

// Reads hops that will go, from a place on, and answers the place of the first one that it didn't. Nothing is promised of that.
#[inline(never)]
pub(crate) fn read_gone(hops: &Hops, gone: &[GoneHop], from: usize) -> usize {
    let Some(rest) = gone.get(from..) else {
        return usize::MAX;
    };
    let mut ahead = HopsAhead::none();
    let unread = from.wrapping_add(ahead.look_up_gone(hops, rest));
    let read = ahead.read_from(hops);
    // it never is, but what was read must have a use
    if read == usize::MAX {
        return from;
    }
    unread
}

// Reads the hops of chains that will come to lists, from a case on, and answers the number of the first one that it didn't. Nothing is promised
// of that.
#[inline(never)]
pub(crate) fn read_loose(lists: &HopLists, loose: &Loose, from: usize) -> usize {
    let mut ahead = HopsAhead::none();
    let unread = ahead.look_up_loose(lists.hops(), loose, from);
    let read = ahead.read_from(lists.hops());
    // it never is, but what was read must have a use
    if read == usize::MAX {
        return from;
    }
    unread
}
