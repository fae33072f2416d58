//! Blocks and prefixes at the front of bytes.
ghost use Rattle.std.specs.Prelude.{◌≡◌, option_map};
ghost use Rattle.bgp_attrs.specs.Blocks.{block_at};
ghost use Rattle.bgp_attrs.specs.Prefixes.{family_bits, nlri_at, prefix_at};

use crate::fixed::{padded_addr, take, take_path, take_two};
use path_model::{Nlri, Prefix};

/// The bytes behind two bytes of length, and what follows them; `None` where they are cut.
#[tactic(auto, unfolding(crate::specs::Blocks::block_at))]
pub fn take_block(bytes: &[u8]) -> Option<(&[u8], &[u8])>
    ensures { option_map (λ x. (x.0.now, x.1.now)) result ≡ block_at bytes.now }
{
    let (count, rest) = take_two(bytes)?;
    take(rest, usize::from(count))
}

/// The first prefix, of IPv6 or else of IPv4, and what follows it; `None` where the length is over 128 or 32, or it is cut.
/// Bits behind the length are cleared.
#[tactic(auto, unfolding(crate::specs::Prefixes::prefix_at))]
pub fn take_prefix(bytes: &[u8], six: bool) -> Option<(Prefix, &[u8])>
    ensures { option_map (λ x. (x.0, x.1.now)) result ≡ prefix_at six bytes.now }
{
    match bytes {
        [len, rest @ ..] => {
            let count = (usize::from(*len) + 7) / 8;
            if *len > bits_in(six) || rest.len() < count {
                return None;
            }
            let (bits, rest) = rest.split_at(count);
            let prefix = Prefix::new(padded_addr(bits, six), *len)?;
            Some((prefix, rest))
        }
        _ => None,
    }
}

// The first prefix, with its path identifier of four bytes before it if `add_path` says so (RFC 7911, section 3), and what follows it;
// `None` where they are no whole ones.
#[tactic(auto, unfolding(crate::specs::Prefixes::nlri_at))]
pub(crate) fn take_nlri(bytes: &[u8], six: bool, add_path: bool) -> Option<(Nlri, &[u8])>
    ensures { option_map (λ x. (x.0, x.1.now)) result ≡ nlri_at add_path six bytes.now }
{
    let (path, rest) = take_path(bytes, add_path)?;
    match take_prefix(rest, six) {
        Some(taken) => {
            let nlri = Nlri {
                prefix: taken.0,
                path,
            };
            Some((nlri, taken.1))
        }
        None => None,
    }
}

fn bits_in(six: bool) -> u8
    ensures { result ≡ family_bits six }
{
    if six { 128 } else { 32 }
}
