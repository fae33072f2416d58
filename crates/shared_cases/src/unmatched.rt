//! The ASes that one of two lists has and the other hasn't.
ghost use Rattle.std.specs.Prelude.{◌≡◌, ℕ, false, IfOk};
ghost use Rattle.path_model.specs.Authority.{has};

use av_base::NoMemory;
use std::alloc::Global;
use std::cmp::Ordering;
use std::vec::Vec;

// All ASes that one list has and the other hasn't, and where both rise no others. It takes the time of a walk over both.
pub(crate) fn unmatched(alloc: Global, one: &[u32], other: &[u32]) -> Result<Vec<u32>, NoMemory>
    ensures { IfOk result (λ found. (y : ℕ) → has found.items y ≡ false
        → has one.now y ≡ has other.now y) }
{
    let mut found = Vec::new(alloc);
    let mut one = one;
    let mut other = other;
    while let (Some((x, xs)), Some((y, ys))) = (one.split_first(), other.split_first()) {
        match x.cmp(y) {
            Ordering::Less => {
                found.push(*x)?;
                one = xs;
            }
            Ordering::Equal => {
                one = xs;
                other = ys;
            }
            Ordering::Greater => {
                found.push(*y)?;
                other = ys;
            }
        }
    }
    found.extend_from_slice(one)?;
    found.extend_from_slice(other)?;
    Ok(found)
}
