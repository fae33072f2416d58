//! Addresses in any text form.
ghost use Rattle.std.specs.Prelude.{◌≡◌, ◌≢◌, ℕ, true, false, ◌<◌, ◌≤◌, ◌∷◌, ◌++◌, ◌^◌, ◌+◌, ◌↔◌, List, length, IsTrue, IfSome, IfNone};
ghost use Rattle.path_model.specs.declared.addr.Addr.{Addr};
ghost use Rattle.path_model.specs.Prefix.{IsAddr};
ghost use Rattle.any_prefix.specs.AnyAddress.{IsAnyAddrText, IsFull, IsSixText};
ghost use Rattle.any_prefix.specs.Reading.{AreNoSides, AreReadSides, IsDouble, IsFirstDouble, IsNoRun, IsReadPart};

use crate::run::{Run, read_run};
use av_text::read_addr;
use path_model::Addr;

// Reads a whole text as an address.
pub(crate) fn read_any_addr(text: &[u8]) -> Option<Addr>
    ensures some { IfSome result (λ addr. IsAnyAddrText text.now addr × IsAddr addr) }
    ensures none { IfNone result ((addr : Addr) → ¬ IsAnyAddrText text.now addr) }
{
    match read_six(text) {
        Some(number) => Some(Addr::V6(number)),
        None => read_four(text),
    }
}

// Reads an IPv4 address.
fn read_four(text: &[u8]) -> Option<Addr>
    ensures some { IfSome result (λ addr. IsAnyAddrText text.now addr × IsAddr addr) }
    ensures none { IfNone result ((n : ℕ) → ¬ IsAnyAddrText text.now (Addr.V4 n)) }
{
    match read_addr(text)? {
        Addr::V4(number) => Some(Addr::V4(number)),
        Addr::V6(_) => None,
    }
}

// Reads all eight groups, or those on either side of two colons.
fn read_six(text: &[u8]) -> Option<u128>
    ensures some { IfSome result (λ n. IsSixText text.now n × (n < 2 ^ 128)) }
    ensures none { IfNone result ((n : ℕ) → ¬ IsSixText text.now n) }
{
    match cut_double(text) {
        None => read_full(text),
        Some((left, right)) => read_compressed(left, right),
    }
}

// Reads all eight groups.
fn read_full(text: &[u8]) -> Option<u128>
    ensures some { IfSome result (λ n. IsFull text.now n × (n < 2 ^ 128)) }
    ensures none { IfNone result ((n : ℕ) → ¬ IsFull text.now n) }
{
    let run = read_run(text, 8, true)?;
    if run.count < 8 {
        return None;
    }
    Some(run.number)
}

// Reads what stands on either side of two colons.
fn read_compressed(left: &[u8], right: &[u8]) -> Option<u128>
    ensures some { IfSome result (AreReadSides left.now right.now) }
    ensures none { IfNone result (AreNoSides left.now right.now) }
{
    let high = read_part(left, 7, false)?;
    let low = read_part(right, 7 - high.count, true)?;
    if high.count == 0 {
        return Some(low.number);
    }
    Some(high.number * 65_536u128.pow(8 - high.count) + low.number)
}

// Reads a run that may be empty.
fn read_part(text: &[u8], most: u32, last: bool) -> Option<Run>
    requires { most ≤ 7 }
    ensures some { IfSome result (IsReadPart last text.now most) }
    ensures none { IfNone result (IsNoRun last text.now most) }
{
    if text.len() < 1 {
        return Some(Run {
            count: 0,
            number: 0,
        });
    }
    read_run(text, most, last)
}

// What stands before the first two colons, and what stands behind them.
fn cut_double(text: &[u8]) -> Option<(&[u8], &[u8])>
    ensures whole { IfSome result (λ parts. text.now ≡ parts.0.now ++ 58 ∷ 58 ∷ parts.1.now) }
    ensures first { IfSome result (λ parts. IsFirstDouble text.now (length parts.0.now)) }
    ensures none { IfNone result ((l r : List ℕ) → text.now ≢ l ++ 58 ∷ 58 ∷ r) }
{
    let len = text.len();
    for at in 1..len {
        if is_double(text, at - 1) {
            let (front, back) = text.split_at(at - 1);
            let (_, rest) = back.split_at(2);
            return Some((front, rest));
        }
    }
    None
}

// Whether two colons stand at a place.
fn is_double(text: &[u8], at: usize) -> bool
    requires { at + 1 < length text.now }
    ensures { IsTrue result ↔ IsDouble text.now at }
{
    text[at] == b':' && text[at + 1] == b':'
}
