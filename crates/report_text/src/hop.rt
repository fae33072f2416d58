//! The line that says what the two ASes of a hop attest of each other.
ghost use Rattle.std.specs.Prelude.{◌≡◌, ◌++◌, OnOk, OnErr};
ghost use Rattle.av_text.specs.Parts.{IsGrown};
ghost use Rattle.report_text.specs.Hops.{hop_text, joined_part};

use crate::authority::push_attested;
use crate::count::push_count;
use av_base::NoMemory;
use path_model::Authority;

/// A hop of a path, and what its two ASes attest of each other.
#[derive(Clone, Copy, Debug, PartialEq, Eq)]
pub struct Hop {
    /// Its number, from 1 at the origin on.
    pub number: u32,
    /// The AS nearer to the origin.
    pub from: u32,
    /// The next AS towards the neighbour.
    pub to: u32,
    /// What `from` attests of `to`.
    pub climb: Authority,
    /// What `to` attests of `from`.
    pub descend: Authority,
}

/// Appends `hop N FROM TO climb A descend B`, whole or not at all; A and B are `provides`, `refuses` or `silent`. A line has 38 to 69 bytes
/// with its line feed, and what it takes is that room in `out` alone.
pub fn put_hop(out: &mut Vec<u8>, hop: Hop) -> Result<(), NoMemory>
    ensures ok { OnOk result (out.new.items ≡ out.old.items ++ hop_text hop) }
    ensures err { OnErr result (out.new.items ≡ out.old.items) }
{
    let start = out.len();
    let done = push_hop(out, hop);
    if done.is_err() {
        out.truncate(start);
    }
    done
}

// Appends the line, or a front of it where that fails.
fn push_hop(out: &mut Vec<u8>, hop: Hop) -> Result<(), NoMemory>
    ensures ok { OnOk result (out.new.items ≡ out.old.items ++ hop_text hop) }
    ensures grown { IsGrown out.old.items out.new.items }
{
    push_joined(out, hop)?;
    push_attested(out, hop.climb, hop.descend)?;
    out.push(b'\n')?;
    Ok(())
}

// Appends which hop it is, or a front of that where it fails.
fn push_joined(out: &mut Vec<u8>, hop: Hop) -> Result<(), NoMemory>
    ensures ok { OnOk result (out.new.items ≡ out.old.items ++ joined_part hop) }
    ensures grown { IsGrown out.old.items out.new.items }
{
    push_count(out, b"hop ", u64::from(hop.number))?;
    push_count(out, b" ", u64::from(hop.from))?;
    push_count(out, b" ", u64::from(hop.to))
}
