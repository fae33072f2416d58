//! Numbers of 32 bits, as values write them.
ghost use Rattle.std.specs.Prelude.{◌≡◌, ℕ, Option, IfSome, IfNone};
ghost use Rattle.validated.specs.Form.{IsAsNumeral, IsMomentNumeral, numeral_view};
ghost use Rattle.validated.specs.Kept.{IsAsText};

use crate::draft::Numeral;
use av_text::read_u32;
use json_fields::{Kind, Value};
use slurm_rules::read_asn;

// An AS, where the value is of a kind that one is written as.
pub(crate) struct AsNumeral;

impl Value for AsNumeral {
    type Item = Numeral;

    ghost Seen = { Option ℕ };

    ghost see = { numeral_view };

    ghost stands_for = { IsAsNumeral };

    fn of(kind: Kind<'_>) -> Option<Numeral> {
        match kind.number() {
            Some(number) => {
                let number = read_asn(&number);
                Some(Numeral { number })
            }
            None => match kind.text() {
                Some(text) => {
                    let number = read_as_text(text.as_bytes());
                    Some(Numeral { number })
                }
                None => None,
            },
        }
    }
}

// A moment, where the value is a number.
pub(crate) struct MomentNumeral;

impl Value for MomentNumeral {
    type Item = Numeral;

    ghost Seen = { Option ℕ };

    ghost see = { numeral_view };

    ghost stands_for = { IsMomentNumeral };

    fn of(kind: Kind<'_>) -> Option<Numeral> {
        match kind.number() {
            Some(number) => {
                let number = read_asn(&number);
                Some(Numeral { number })
            }
            None => None,
        }
    }
}

// The AS that a text names.
fn read_as_text(text: &[u8]) -> Option<u32>
    ensures some { IfSome result (IsAsText text.now) }
    ensures none { IfNone result ((x : _) → IsAsText text.now x → ⊥) }
{
    let digits = text.strip_prefix(b"AS")?;
    read_u32(digits)
}
