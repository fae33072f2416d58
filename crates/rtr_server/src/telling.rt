//! What is reported of routers, as text.
ghost use Rattle.std.specs.Prelude.{◌≡◌, ◌++◌, ◌≤◌, IfOk, OnOk, OnErr};
ghost use Rattle.av_text.specs.Parts.{IsGrown};
ghost use Rattle.rtr_server.specs.Outcomes.{end_text, feed_end as end_reported, lines_in, one_if, outcome_text, refused_text, serve_name};

use crate::outcome::{Outcome, Refusal, RouterEnd};
use av_base::NoMemory;
use path_model::Name;
use report_text::{FeedEnd, Place, put_feed, put_refusal};
use std::alloc::Global;

/// The name under which routers are reported: `serve`.
pub(crate) fn name_of_routers(alloc: Global) -> Result<Name, NoMemory>
    ensures { IfOk result (λ name. name ≡ serve_name) }
{
    Ok(Name::new(alloc, b"serve")?.unwrap())
}

/// Appends the lines of what came of a router, whole or not at all.
pub(crate) fn put_outcome(
    text: &mut Vec<u8>,
    line: u64,
    name: &Name,
    outcome: Outcome,
) -> Result<(), NoMemory>
    requires { name.now ≡ serve_name }
    ensures ok { OnOk result (text.new.items ≡ text.old.items ++ outcome_text line outcome) }
    ensures err { OnErr result (text.new.items ≡ text.old.items) }
{
    let start = text.len();
    let done = push_outcome(text, line, name, outcome);
    if done.is_err() {
        text.truncate(start);
    }
    done
}

// Appends the lines, or a front of them where that fails.
fn push_outcome(
    text: &mut Vec<u8>,
    line: u64,
    name: &Name,
    outcome: Outcome,
) -> Result<(), NoMemory>
    requires { name.now ≡ serve_name }
    ensures ok { OnOk result (text.new.items ≡ text.old.items ++ outcome_text line outcome) }
    ensures grown { IsGrown text.old.items text.new.items }
{
    put_refused(text, line, name, outcome.refused)?;
    put_end(text, line, name, outcome.end)?;
    Ok(())
}

// Appends the line of a refused PDU.
fn put_refused(
    text: &mut Vec<u8>,
    line: u64,
    name: &Name,
    refused: Option<Refusal>,
) -> Result<(), NoMemory>
    requires { name.now ≡ serve_name }
    ensures ok { OnOk result (text.new.items ≡ text.old.items ++ refused_text line refused) }
    ensures err { OnErr result (text.new.items ≡ text.old.items) }
{
    match refused {
        Some(refusal) => {
            let place = Place::Unit {
                name: name.text(),
                unit: refusal.number,
            };
            put_refusal(text, line, place, refusal.cause)
        }
        None => Ok(()),
    }
}

// Appends the line of an end.
fn put_end(
    text: &mut Vec<u8>,
    line: u64,
    name: &Name,
    end: Option<RouterEnd>,
) -> Result<(), NoMemory>
    requires { name.now ≡ serve_name }
    ensures ok { OnOk result (text.new.items ≡ text.old.items ++ end_text line end) }
    ensures err { OnErr result (text.new.items ≡ text.old.items) }
{
    match end {
        Some(end) => put_feed(text, line, name, feed_end(end)),
        None => Ok(()),
    }
}

// The same end of a feed, which reads so.
fn feed_end(end: RouterEnd) -> FeedEnd
    ensures { result ≡ end_reported end }
{
    match end {
        RouterEnd::Lost => FeedEnd::Lost,
        RouterEnd::Short => FeedEnd::Short,
    }
}

/// How many lines report what came of a router.
pub(crate) fn count_lines(outcome: Outcome) -> u64
    ensures exact { result ≡ lines_in outcome }
    ensures most { result ≤ 2 }
{
    count_refused(outcome.refused) + count_end(outcome.end)
}

fn count_refused(refused: Option<Refusal>) -> u64
    ensures exact { result ≡ one_if refused }
    ensures most { result ≤ 1 }
{
    match refused {
        Some(_) => 1,
        None => 0,
    }
}

fn count_end(end: Option<RouterEnd>) -> u64
    ensures exact { result ≡ one_if end }
    ensures most { result ≤ 1 }
{
    match end {
        Some(_) => 1,
        None => 0,
    }
}
