//! A hop as the pair of its ASes.
ghost use Rattle.std.specs.Prelude.{◌≡◌, ◌<◌, ◌^◌};
ghost use Rattle.hop_index.specs.Pairs.{pair_of, pair_word};

// Two ASes with a hop between them, the lower number first, so that the hop is the same from either of them. The order is by the lower
// number and then by the higher one. It takes 8 bytes.
#[derive(Clone, Copy, Debug, PartialEq, Eq, PartialOrd, Ord)]
pub(crate) struct Pair {
    pub(crate) low: u32,
    pub(crate) high: u32,
}

impl Pair {
    // The pair of two ASes, given in either order.
    pub(crate) fn of(x: u32, y: u32) -> Pair
        ensures { result ≡ pair_of x y }
    {
        Pair {
            low: x.min(y),
            high: x.max(y),
        }
    }

    // The pair as one word.
    pub(crate) fn word(self) -> u64
        ensures same { result ≡ pair_word self }
        ensures small { self.high < 2 ^ 32 }
    {
        self.low as u64 * 4294967296 + self.high as u64
    }
}
