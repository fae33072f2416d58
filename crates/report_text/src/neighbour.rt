//! The line that says what two neighbouring ASes attest of each other, and how many routes went between them.
ghost use Rattle.std.specs.Prelude.{◌≡◌, ◌++◌, OnOk, OnErr};
ghost use Rattle.av_text.specs.Parts.{IsGrown};
ghost use Rattle.report_text.specs.Neighbours.{both_part, neighbour_text, went_part};

use crate::authority::push_attested;
use crate::count::push_count;
use av_base::NoMemory;
use path_model::Authority;

/// An AS that stands beside another one on some route's path, and how many routes went between the two.
#[derive(Clone, Copy, Debug)]
pub struct Neighbour {
    /// The AS that is asked about.
    pub asn: u32,
    /// The one beside it.
    pub neighbour: u32,
    /// What the AS attests of the one beside it.
    pub climb: Authority,
    /// What that one attests of the AS.
    pub descend: Authority,
    /// Routes that went from the AS to the one beside it.
    pub to: u64,
    /// Routes that went from that one to the AS.
    pub from: u64,
}

/// Appends `AS NEIGHBOUR climb A descend B to R from S`, whole or not at all; A and B are `provides`, `refuses` or `silent`. A line has 44 to
/// 104 bytes with its line feed, and what it takes is that room in `out` alone.
pub fn put_neighbour(out: &mut Vec<u8>, neighbour: Neighbour) -> Result<(), NoMemory>
    ensures ok { OnOk result (out.new.items ≡ out.old.items ++ neighbour_text neighbour) }
    ensures err { OnErr result (out.new.items ≡ out.old.items) }
{
    let start = out.len();
    let done = push_neighbour(out, neighbour);
    if done.is_err() {
        out.truncate(start);
    }
    done
}

// Appends the line, or a front of it where that fails.
fn push_neighbour(out: &mut Vec<u8>, neighbour: Neighbour) -> Result<(), NoMemory>
    ensures ok { OnOk result (out.new.items ≡ out.old.items ++ neighbour_text neighbour) }
    ensures grown { IsGrown out.old.items out.new.items }
{
    push_both(out, neighbour)?;
    push_attested(out, neighbour.climb, neighbour.descend)?;
    push_went(out, neighbour)?;
    out.push(b'\n')?;
    Ok(())
}

// Appends the two ASes, or a front of them where that fails.
fn push_both(out: &mut Vec<u8>, neighbour: Neighbour) -> Result<(), NoMemory>
    ensures ok { OnOk result (out.new.items ≡ out.old.items ++ both_part neighbour) }
    ensures grown { IsGrown out.old.items out.new.items }
{
    push_count(out, b"", u64::from(neighbour.asn))?;
    push_count(out, b" ", u64::from(neighbour.neighbour))
}

// Appends how many routes went to it and came from it, or a front of that where it fails.
fn push_went(out: &mut Vec<u8>, neighbour: Neighbour) -> Result<(), NoMemory>
    ensures ok { OnOk result (out.new.items ≡ out.old.items ++ went_part neighbour) }
    ensures grown { IsGrown out.old.items out.new.items }
{
    push_count(out, b" to ", neighbour.to)?;
    push_count(out, b" from ", neighbour.from)
}
