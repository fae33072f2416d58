//! Numbers below 256 with dots between them.
ghost use Rattle.std.specs.Prelude.{◌≡◌, ◌≢◌, ℕ, ◌<◌, ◌≤◌, ◌++◌, decimal, IfSome, IfNone, OnOk};
ghost use Rattle.av_text.specs.AddressText.{octets_text};
ghost use Rattle.av_text.specs.Parts.{IsParts, IsNoParts, IsGrown};

use crate::marks::cut;
use crate::number::{put_u64, read_u32};
use av_base::NoMemory;

/// Reads numbers below 256 with so many dots, at most 3, between them.
pub(crate) fn read_octets(text: &[u8], dots: u32) -> Option<u32>
    requires { dots ≤ 3 }
    ensures some { IfSome result (IsParts decimal 46 256 dots text.now) }
    ensures none { IfNone result (IsNoParts decimal 46 256 dots text.now) }
{
    if dots == 0 {
        return read_octet(text);
    }
    let (first, rest) = cut(text, b'.')?;
    let high = read_octet(first)?;
    let low = read_octets(rest, dots - 1)?;
    Some(high * 256u32.pow(dots) + low)
}

/// Reads a number below 256.
#[tactic(auto, using(crate::proofs::OctetLemmas::octet_steps))]
pub(crate) fn read_octet(text: &[u8]) -> Option<u32>
    ensures some { IfSome result (λ n. (n < 256) × (text.now ≡ decimal n)) }
    ensures none { IfNone result ((n : ℕ) → n < 256 → text.now ≢ decimal n) }
{
    read_u32(text).filter(|n| *n < 256)
}

/// Appends a number as numbers below 256 with so many dots, at most 3, between them. Where it fails, a part may stand there.
pub(crate) fn put_octets(out: &mut Vec<u8>, number: u32, dots: u32) -> Result<(), NoMemory>
    requires { dots ≤ 3 }
    ensures ok { OnOk result (out.new.items ≡ out.old.items ++ octets_text dots number) }
    ensures grown { IsGrown out.old.items out.new.items }
{
    if dots == 0 {
        return put_u64(out, u64::from(number));
    }
    let scale = 256u32.pow(dots);
    put_u64(out, u64::from(number / scale))?;
    out.push(b'.')?;
    put_octets(out, number % scale, dots - 1)
}
