//! What a case is found by.
ghost use Rattle.std.specs.Prelude.{◌≡◌, nat_eq, Some, refl};
ghost use Rattle.std.specs.Cmp.Lexicographic.{pointwise, nat_list_cmp_total, nat_list_eq_equiv, texts_ties};
ghost use Rattle.std.specs.Cmp.{on_equiv, on_total, partial_equiv_from_equiv, partial_order_from_agreeing_total};
ghost use Rattle.shared_cases.specs.Names.{name_of, name_cmp, numbers_of, word_of};

use path_model::Trail;
use std::cmp::Ordering;

// Odd, and near 2^64 divided by the golden ratio.
const FACTOR: u64 = 11400714819323198485;

// A peer AS and a path, with a word that is mixed from them. The order is by the word first, so that most comparisons are of one word,
// and then by the rest, so that who makes words alike gains no more than comparisons of paths.
#[derive(Drop)]
pub(crate) struct CaseName {
    pub(crate) word: u64,
    pub(crate) asn: u32,
    pub(crate) trail: Trail,
}

impl CaseName {
    // The name of the case of this AS and path. It takes no memory.
    pub(crate) fn new(asn: u32, trail: Trail) -> CaseName
        ensures { result ≡ name_of asn trail }
    {
        let word = mixed(asn, &trail);
        CaseName { word, asn, trail }
    }
}

// The word of an AS and a path.
#[inline(always)]
pub(crate) fn mixed(asn: u32, trail: &Trail) -> u64
    ensures { result ≡ word_of asn trail.now }
{
    let mut word = u64::from(asn) * 2 + u64::from(trail.is_set());
    for x in trail.chain().as_slice() {
        word = word.wrapping_mul(FACTOR).wrapping_add(u64::from(*x));
    }
    word
}

impl PartialEq for CaseName {
    ghost eq = { λ a b. pointwise nat_eq (numbers_of a) (numbers_of b) };

    ghost laws = { partial_equiv_from_equiv (on_equiv numbers_of nat_list_eq_equiv) };

    fn eq(&self, other: &CaseName) -> bool {
        self.word == other.word
            && self.asn == other.asn
            && self.trail.is_set() == other.trail.is_set()
            && self.trail.chain().as_slice() == other.trail.chain().as_slice()
    }
}

impl Eq for CaseName {
    ghost laws = { on_equiv numbers_of nat_list_eq_equiv };
}

impl PartialOrd for CaseName {
    ghost partial_cmp = { λ a b. Some (name_cmp a b) };

    ghost laws = { partial_order_from_agreeing_total name_cmp (on_total numbers_of nat_list_cmp_total) (λ x y. refl) (λ x y. texts_ties (numbers_of x) (numbers_of y)) };

    fn partial_cmp(&self, other: &CaseName) -> Option<Ordering> {
        Some(self.cmp(other))
    }
}

impl Ord for CaseName {
    ghost cmp = { name_cmp };

    ghost total = { on_total numbers_of nat_list_cmp_total };

    ghost matches_partial_cmp = { λ a b. refl };

    ghost matches_eq = { λ a b. texts_ties (numbers_of a) (numbers_of b) };

    fn cmp(&self, other: &CaseName) -> Ordering {
        match self.word.cmp(&other.word) {
            Ordering::Less => Ordering::Less,
            Ordering::Greater => Ordering::Greater,
            Ordering::Equal => self
                .asn
                .cmp(&other.asn)
                .then(u8::from(self.trail.is_set()).cmp(&u8::from(other.trail.is_set())))
                .then(
                    self.trail
                        .chain()
                        .as_slice()
                        .cmp(other.trail.chain().as_slice()),
                ),
        }
    }
}
