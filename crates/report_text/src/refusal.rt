//! The line that reports a refusal.
ghost use Rattle.std.specs.Prelude.{◌≡◌, ◌++◌, IfOk, OnOk, OnErr};
ghost use Rattle.report_text.specs.Places.{place_of};
ghost use Rattle.report_text.specs.Refusals.{place_text, refusal_text};

use crate::cause::Cause;
use crate::place::Place;
use av_base::NoMemory;
use av_text::put_u64;
use std::alloc::Global;

/// Appends `! line L cause C WORD` or `! line L NAME unit K cause C WORD`, whole or not at all. Lines are numbered from 1.
pub fn put_refusal(
    out: &mut Vec<u8>,
    line: u64,
    place: Place<'_>,
    cause: Cause,
) -> Result<(), NoMemory>
    ensures ok { OnOk result (out.new.items ≡ out.old.items ++ refusal_text line (place_of place.entry) cause) }
    ensures err { OnErr result (out.new.items ≡ out.old.items) }
{
    let whole = refusal(*out.allocator(), line, place, cause)?;
    out.extend_from_slice(&whole)?;
    Ok(())
}

// The whole line.
fn refusal(alloc: Global, line: u64, place: Place<'_>, cause: Cause) -> Result<Vec<u8>, NoMemory>
    ensures { IfOk result (λ whole. whole.items ≡ refusal_text line (place_of place.entry) cause) }
{
    let mut whole = Vec::new(alloc);
    whole.extend_from_slice(b"! line ")?;
    put_u64(&mut whole, line)?;
    put_place(&mut whole, place)?;
    whole.extend_from_slice(b" cause ")?;
    put_u64(&mut whole, u64::from(cause.number()))?;
    whole.push(b' ')?;
    whole.extend_from_slice(cause.word().as_bytes())?;
    whole.push(b'\n')?;
    Ok(whole)
}

// Appends the words of a place: none for a line, and ` NAME unit K` for a unit.
fn put_place(whole: &mut Vec<u8>, place: Place<'_>) -> Result<(), NoMemory>
    ensures { OnOk result (whole.new.items ≡ whole.old.items ++ place_text (place_of place.entry)) }
{
    match place {
        Place::Line => Ok(()),
        Place::Unit { name, unit } => {
            whole.push(b' ')?;
            whole.extend_from_slice(name.as_bytes())?;
            whole.extend_from_slice(b" unit ")?;
            put_u64(whole, unit)
        }
    }
}
