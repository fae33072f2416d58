//! The line of a script that asserts by hand what a customer attests.
ghost use Rattle.std.specs.Prelude.{◌≡◌, ◌+◌, ◌<◌, ◌≤◌, ◌++◌, length, take, IfOk, OnOk, OnErr};
ghost use Rattle.av_text.specs.Parts.{IsGrown};
ghost use Rattle.report_text.specs.Assertions.{IsFilled, assertion_text};
ghost use Rattle.report_text.specs.Details.{ases_text};

use crate::count::push_count;
use av_base::NoMemory;

// The most bytes that a line of a script has, without its line feed.
const MOST_BYTES: usize = 4_096;

/// Appends `assert CUSTOMER P..` with as many of these providers as a line of a script has room for, whole or not at all, and answers how
/// many these are: at least one. Of no providers it is `assert CUSTOMER 0`. A line has at most 4,096 bytes and its line feed, and what it
/// takes is that room in `out` alone.
pub fn put_assertion(out: &mut Vec<u8>, customer: u32, providers: &[u32]) -> Result<usize, NoMemory>
    ensures filled { IfOk result (IsFilled customer providers.now) }
    ensures ok { IfOk result (λ taken. out.new.items
        ≡ out.old.items ++ assertion_text customer (take taken providers.now)) }
    ensures err { OnErr result (out.new.items ≡ out.old.items) }
{
    let start = out.len();
    let done = push_assertion(out, customer, providers);
    if done.is_err() {
        out.truncate(start);
    }
    done
}

// Appends the line, or a front of it where that fails.
fn push_assertion(out: &mut Vec<u8>, customer: u32, providers: &[u32]) -> Result<usize, NoMemory>
    ensures filled { IfOk result (IsFilled customer providers.now) }
    ensures ok { IfOk result (λ taken. out.new.items
        ≡ out.old.items ++ assertion_text customer (take taken providers.now)) }
    ensures grown { IsGrown out.old.items out.new.items }
{
    let start = out.len();
    push_count(out, b"assert ", u64::from(customer))?;
    let taken = if providers.is_empty() {
        push_count(out, b" ", 0)?;
        0
    } else {
        let room = MOST_BYTES - (out.len() - start);
        push_filling(out, room, providers)?
    };
    out.push(b'\n')?;
    Ok(taken)
}

// Appends as many of these ASes as so many bytes have room for, each behind a space, and answers how many; or a front of that where it fails.
fn push_filling(out: &mut Vec<u8>, room: usize, ases: &[u32]) -> Result<usize, NoMemory>
    requires { 11 ≤ room }
    ensures within { IfOk result (λ taken. taken ≤ length ases.now) }
    ensures some { IfOk result (λ taken. 0 < length ases.now → 0 < taken) }
    ensures fits { IfOk result (λ taken. length (ases_text (take taken ases.now)) ≤ room) }
    ensures full { IfOk result (λ taken. taken < length ases.now
        → room < length (ases_text (take (taken + 1) ases.now))) }
    ensures ok { IfOk result (λ taken. out.new.items
        ≡ out.old.items ++ ases_text (take taken ases.now)) }
    ensures grown { IsGrown out.old.items out.new.items }
{
    let start = out.len();
    let mut taken = 0;
    for asn in ases {
        let end = out.len();
        push_count(out, b" ", u64::from(*asn))?;
        if out.len() - start > room {
            out.truncate(end);
            break;
        }
        taken += 1;
    }
    Ok(taken)
}
