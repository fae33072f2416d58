//! Hops of cases that go together, so that those between the same two ASes can go one after another.
ghost use Rattle.std.specs.Prelude.{◌≡◌, ℕ, false, [], length, OnOk};
ghost use Rattle.hop_index.specs.Gone.{has_gone, Gathers};
ghost use Rattle.hop_index.specs.Kept.{GathersHop};

use crate::pair::Pair;
use av_base::NoMemory;
use path_model::AsList;
use std::alloc::Global;
use std::marker::Model;

// The hop of a case. It takes 12 bytes.
#[derive(Clone, Copy)]
pub(crate) struct GoneHop {
    pub(crate) pair: Pair,
    pub(crate) case: u32,
}

/// Hops of cases that will go from an index together, as when a session is lost: [`HopIndex::remove_each`](crate::HopIndex::remove_each)
/// takes them. They take 12 to 24 bytes each, and half as much again while their room doubles.
#[derive(Drop)]
pub struct GoneHops {
    // in the order in which they were pushed
    hops: Vec<GoneHop>,
}

impl Model for GoneHops {
    ghost use Rattle.std.specs.Prelude.{List};
    ghost use Rattle.hop_index.specs.declared.gone.GoneHop.{GoneHop};

    ghost Value = { List GoneHop };

    ghost view = { λ g. g.hops.items };
}

impl GoneHops {
    /// None. It takes no memory.
    pub fn new(alloc: Global) -> GoneHops
        ensures empty { result ≡ [] }
        ensures none { (x y n : ℕ) → has_gone result x y n ≡ false }
    {
        GoneHops {
            hops: Vec::new(alloc),
        }
    }

    /// The hops of a case between each two neighbours of its chain come in, a step each. For a number of 2^32 or above there is no memory.
    /// Where there was none, nothing is promised of the hops. Cases come best by falling number, for then those at the end of the cases of
    /// a hop go from there one after another, and no other one has to move.
    pub fn push(&mut self, case: usize, chain: &AsList) -> Result<(), NoMemory>
        ensures { OnOk result (Gathers self.old case chain.now self.new) }
    {
        let Ok(number) = u32::try_from(case) else {
            return Err(NoMemory);
        };
        self.push_all(chain.as_slice(), number)
    }

    /// How many there are, each as often as it came.
    pub fn len(&self) -> usize
        ensures { result ≡ length self.now }
    {
        self.hops.len()
    }

    // All of them, by their two ASes. Those of the same two keep their order. Where there is no memory to sort them they stay as they are.
    pub(crate) fn into_sorted(self) -> Vec<GoneHop>
        ensures { (x y n : ℕ) → has_gone result.items x y n ≡ has_gone self x y n }
    {
        let mut hops = self.hops;
        let _ = hops.sort_by_key(|hop| hop.pair.word());
        hops
    }

    // The hops of a chain, with this case.
    fn push_all(&mut self, chain: &[u32], case: u32) -> Result<(), NoMemory>
        ensures { OnOk result (Gathers self.old case chain.now self.new) }
    {
        for k in 1..chain.len() {
            self.push_one(chain[k - 1], chain[k], case)?;
        }
        Ok(())
    }

    // The hop between two ASes, with this case.
    #[inline(always)]
    fn push_one(&mut self, x: u32, y: u32, case: u32) -> Result<(), NoMemory>
        ensures { OnOk result (GathersHop self.old x y case self.new) }
    {
        self.hops.push(GoneHop {
            pair: Pair::of(x, y),
            case,
        })?;
        Ok(())
    }
}
