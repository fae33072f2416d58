//! The line that says why a path has its verdict.
ghost use Rattle.std.specs.Prelude.{◌≡◌, ◌++◌, OnOk, OnErr};
ghost use Rattle.av_text.specs.Parts.{IsGrown};
ghost use Rattle.report_text.specs.Why.{hops_text, labelling_text, witness_text, why_text};

use crate::count::push_count;
use av_base::NoMemory;
use av_text::put_verdict;
use path_model::{Verdict, Witness};

/// Appends the verdict, a space and the witness, whole or not at all. The witness is `climbs C free F descents D` for a valid path, `empty`,
/// `set`, `neighbour`, `blocked I J`, or `unsettled I J climbs C free F descents D`. I is the first hop and J the last; where there is no
/// last one, J and the space before it are left out. A line has 10 to 94 bytes with its line feed, and what it takes is that room in `out`
/// alone.
pub fn put_why(out: &mut Vec<u8>, verdict: Verdict, witness: Witness) -> Result<(), NoMemory>
    ensures ok { OnOk result (out.new.items ≡ out.old.items ++ why_text verdict witness) }
    ensures err { OnErr result (out.new.items ≡ out.old.items) }
{
    let start = out.len();
    let done = push_why(out, verdict, witness);
    if done.is_err() {
        out.truncate(start);
    }
    done
}

// Appends the line, or a front of it where that fails.
fn push_why(out: &mut Vec<u8>, verdict: Verdict, witness: Witness) -> Result<(), NoMemory>
    ensures ok { OnOk result (out.new.items ≡ out.old.items ++ why_text verdict witness) }
    ensures grown { IsGrown out.old.items out.new.items }
{
    put_verdict(out, verdict)?;
    out.push(b' ')?;
    push_witness(out, witness)?;
    out.push(b'\n')?;
    Ok(())
}

/// Appends the witness, or a front of it where that fails.
pub(crate) fn push_witness(out: &mut Vec<u8>, witness: Witness) -> Result<(), NoMemory>
    ensures ok { OnOk result (out.new.items ≡ out.old.items ++ witness_text witness) }
    ensures grown { IsGrown out.old.items out.new.items }
{
    match witness {
        Witness::Valid {
            climbs,
            free,
            descents,
        } => push_labelling(out, climbs, free, descents),
        Witness::Empty => Ok(out.extend_from_slice(b"empty")?),
        Witness::Set => Ok(out.extend_from_slice(b"set")?),
        Witness::Neighbour => Ok(out.extend_from_slice(b"neighbour")?),
        Witness::Blocked { first, last } => push_hops(out, b"blocked ", first, last),
        Witness::Unsettled {
            first,
            last,
            climbs,
            free,
            descents,
        } => {
            push_hops(out, b"unsettled ", first, last)?;
            out.push(b' ')?;
            push_labelling(out, climbs, free, descents)
        }
    }
}

// Appends a word, the first hop and the last one if there is one, or a front of that where it fails.
fn push_hops(out: &mut Vec<u8>, word: &[u8], first: u32, last: Option<u32>) -> Result<(), NoMemory>
    ensures ok { OnOk result (out.new.items ≡ out.old.items ++ word.now ++ hops_text first last) }
    ensures grown { IsGrown out.old.items out.new.items }
{
    push_count(out, word, u64::from(first))?;
    match last {
        None => Ok(()),
        Some(last) => push_count(out, b" ", u64::from(last)),
    }
}

// Appends how many hops climb, are free and descend, or a front of that where it fails.
fn push_labelling(out: &mut Vec<u8>, climbs: u32, free: u32, descents: u32) -> Result<(), NoMemory>
    ensures ok { OnOk result (out.new.items ≡ out.old.items ++ labelling_text climbs free descents) }
    ensures grown { IsGrown out.old.items out.new.items }
{
    push_count(out, b"climbs ", u64::from(climbs))?;
    push_count(out, b" free ", u64::from(free))?;
    push_count(out, b" descents ", u64::from(descents))
}
