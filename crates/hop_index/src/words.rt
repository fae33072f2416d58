//! Chains in one list of words, each behind its length.
ghost use Rattle.std.specs.Prelude.{◌≡◌, ◌≤◌, ℕ, length, IfOk};
ghost use Rattle.hop_index.specs.Words.{chain_in, IsWithin, no_place};

use av_base::NoMemory;

// Where no chain begins.
pub(crate) const NO_PLACE: usize = 4_294_967_295;

// The chain that begins at a place, and an empty one behind the end.
#[inline(always)]
pub(crate) fn chain_in(words: &[u32], begin: usize) -> &[u32]
    requires few { length words.now ≤ no_place }
    requires within { IsWithin words.now begin }
    ensures { result.now ≡ chain_in words.now begin }
{
    match words.get(begin) {
        None => &[],
        Some(len) => &words[begin + 1..begin + 1 + *len as usize],
    }
}

// A chain comes behind the others. Answered is where it begins. Where there is no memory the words may be more, and none of the chains
// changes.
#[inline(always)]
pub(crate) fn put_words(words: &mut Vec<u32>, chain: &[u32]) -> Result<u32, NoMemory>
    requires few { length words.old.items ≤ no_place }
    ensures few { length words.new.items ≤ no_place }
    ensures same { (begin : ℕ) → IsWithin words.old.items begin
        → chain_in words.new.items begin ≡ chain_in words.old.items begin }
    ensures within { (begin : ℕ) → IsWithin words.old.items begin → IsWithin words.new.items begin }
    ensures chain { IfOk result (λ begin. chain_in words.new.items begin ≡ chain.now) }
    ensures begins { IfOk result (λ begin. IsWithin words.new.items begin) }
{
    let begin = words.len();
    let room = NO_PLACE - begin;
    if chain.len() >= room {
        return Err(NoMemory);
    }
    words.push(chain.len() as u32)?;
    words.extend_from_slice(chain)?;
    Ok(begin as u32)
}
