//! The line that reports a route's verdict with what shows it and its path.
ghost use Rattle.std.specs.Prelude.{◌≡◌, ◌++◌, ◌∷◌, [], OnOk, OnErr, reverse};
ghost use Rattle.av_text.specs.Parts.{IsGrown};
ghost use Rattle.report_text.specs.Details.{ases_text, behind_row, detail_text, path_text, set_text};

use crate::count::push_count;
use crate::peer_lines::PeerLines;
use crate::why::push_witness;
use av_base::NoMemory;
use path_model::{Key, Trail, Verdict, Witness};

/// Appends `ADDRESS AS PREFIX VERDICT WITNESS path AS..`, whole or not at all: the words of the route's row ([`put_row`](crate::put_row)),
/// the witness as in [`put_why`](crate::put_why), and the path's ASes without prepends, neighbour first, with `set` in front of them where
/// the path has an AS_SET. A path without an AS has nothing there. What it takes is the room of the line in `out` alone: 214 bytes at most
/// with its line feed, and 11 more for each AS.
pub fn put_detail(
    out: &mut Vec<u8>,
    key: &Key,
    verdict: Verdict,
    witness: Witness,
    trail: &Trail,
) -> Result<(), NoMemory>
    ensures ok { OnOk result
        (out.new.items ≡ out.old.items ++ detail_text key.now verdict witness trail.now) }
    ensures err { OnErr result (out.new.items ≡ out.old.items) }
{
    let mut lines = PeerLines::new();
    lines.put_detail(out, key, verdict, witness, trail)
}

/// Appends the words of a row, and behind them the witness, the path and a line feed, whole or not at all.
pub(crate) fn put_behind(
    out: &mut Vec<u8>,
    row: &[u8],
    witness: Witness,
    trail: &Trail,
) -> Result<(), NoMemory>
    ensures ok { OnOk result
        (out.new.items ≡ out.old.items ++ (behind_row row.now witness trail.now ++ 10 ∷ [])) }
    ensures err { OnErr result (out.new.items ≡ out.old.items) }
{
    let start = out.len();
    let done = push_behind(out, row, witness, trail);
    if done.is_err() {
        out.truncate(start);
    }
    done
}

// Appends the line, or a front of it where that fails.
fn push_behind(
    out: &mut Vec<u8>,
    row: &[u8],
    witness: Witness,
    trail: &Trail,
) -> Result<(), NoMemory>
    ensures ok { OnOk result
        (out.new.items ≡ out.old.items ++ (behind_row row.now witness trail.now ++ 10 ∷ [])) }
    ensures grown { IsGrown out.old.items out.new.items }
{
    out.extend_from_slice(row)?;
    out.push(b' ')?;
    push_witness(out, witness)?;
    push_path(out, trail)?;
    out.push(b'\n')?;
    Ok(())
}

// Appends the path behind its word, or a front of that where it fails.
fn push_path(out: &mut Vec<u8>, trail: &Trail) -> Result<(), NoMemory>
    ensures ok { OnOk result (out.new.items ≡ out.old.items ++ path_text trail.now) }
    ensures grown { IsGrown out.old.items out.new.items }
{
    out.extend_from_slice(b" path")?;
    push_set(out, trail.is_set())?;
    push_ases(out, trail.chain().as_slice())
}

// Appends the word for an AS_SET, where there is one.
fn push_set(out: &mut Vec<u8>, set: bool) -> Result<(), NoMemory>
    ensures ok { OnOk result (out.new.items ≡ out.old.items ++ set_text set) }
    ensures grown { IsGrown out.old.items out.new.items }
{
    if !set {
        return Ok(());
    }
    Ok(out.extend_from_slice(b" set")?)
}

// Appends the ASes of a chain from its end on, each behind a space, or a front of that where it fails.
fn push_ases(out: &mut Vec<u8>, chain: &[u32]) -> Result<(), NoMemory>
    ensures ok { OnOk result (out.new.items ≡ out.old.items ++ ases_text (reverse chain.now)) }
    ensures grown { IsGrown out.old.items out.new.items }
{
    let mut left = chain;
    while let Some((asn, front)) = left.split_last() {
        push_count(out, b" ", u64::from(*asn))?;
        left = front;
    }
    Ok(())
}
