//! Serving routers, one after another.
ghost use Rattle.std.specs.Prelude.{◌≡◌, ◌*◌, ◌<◌, ◌≤◌, None, false, length, IfOk, IfSome, IsErrOf, OnErr};
ghost use Rattle.std.specs.Io.KnownBytes.{append_known};
ghost use Rattle.av_base.specs.Told.{Grows, Rose};
ghost use Rattle.connection_calls.specs.Connection.{Spares};
ghost use Rattle.connection_calls.specs.Faults.{BreaksByFault};
ghost use Rattle.connection_calls.specs.World.{AddsAttempts};
ghost use Rattle.rtr_server.specs.Outcomes.{serve_name};
ghost use Rattle.rtr_server.specs.Routers.{HaltedAs, ServedAs};
ghost use Rattle.rtr_server.specs.Steps.{TurnHalted, TurnedAs};

use crate::outcome::Outcome;
use crate::serving::serve_router;
use crate::telling::{count_lines, name_of_routers, put_outcome};
use av_base::{Links, Sink, Stop, pour};
use path_model::Name;
use report_text::{FeedEnd, put_feed};
use rtr_cache::Cache;
use std::alloc::Global;

/// A line that serves: its number, from 1, the cache that it serves from, and the place where routers connect.
#[derive(Clone, Copy)]
pub struct Service<'a> {
    /// The number of the line, from 1.
    pub line: u64,
    /// The cache that all its routers are served from.
    pub cache: &'a Cache,
    /// The place where routers connect: an address with a port.
    pub place: &'a str,
}

/// What a line counts of the routers that it served.
#[derive(Clone, Copy, Debug, PartialEq, Eq)]
pub struct Served {
    /// How many were accepted.
    pub accepted: u32,
    /// How many answers were sent whole, each with its End of Data.
    pub answers: u64,
    /// How many lines of text begin with `! `.
    pub refused: u64,
    /// Whether no attempt to accept one failed.
    pub reached: bool,
}

/// Serves so many routers at a place, one after another, from this cache, and reports refused PDUs, lost connections, routers that asked for
/// more than 65,536 PDUs, and an attempt to accept that failed, after which none is accepted. The text is held, and written before each
/// wait for a router. It takes memory for one router at a time, beside what the links keep of each connection.
pub fn serve<K: Links, W: Sink>(
    alloc: Global,
    service: Service<'_>,
    count: u32,
    links: &mut K,
    out: &mut W,
    text: &mut Vec<u8>,
) -> Result<Served, Stop>
    // What came of the routers, in whatever the attempts and connections come to, and the text of it.
    ensures serves { IfOk result (λ served. ServedAs
        (K.attempts links.old) (K.attempts links.new) (K.wire links.new)
        service.entry.cache.now service.entry.line service.entry.place.now count served
        (append_known (W.written out.old) text.old.items)
        (append_known (W.written out.new) text.new.items)) }
    ensures few { IfOk result (λ served. served.refused ≤ 2 * count) }

    // Where it ended early: some first routers with their text, and perhaps one more of which nothing is reported.
    ensures halts { OnErr result (HaltedAs
        (K.attempts links.old) (K.attempts links.new) (K.wire links.new)
        service.entry.cache.now service.entry.line service.entry.place.now count
        (append_known (W.written out.old) text.old.items)
        (append_known (W.written out.new) text.new.items)) }

    // Whatever is told: connections that were there stay as they were, one breaks only where a fault was counted, and so it is with
    // an attempt that failed.
    ensures attempts { AddsAttempts (K.wire links.old) (K.attempts links.old) (K.attempts links.new) }
    ensures others { Spares (λ other. other < length (K.standings links.old))
        (K.wire links.old) (K.wire links.new) (K.standings links.old) (K.standings links.new) }
    ensures broke { BreaksByFault (K.faults links.old) (K.faults links.new)
        (K.standings links.old) (K.standings links.new) }
    ensures unreachable { IfOk result (λ served. served.reached ≡ false
        → Rose (K.faults links.old) (K.faults links.new)) }

    // The sink.
    ensures no_shelf { IsErrOf result Stop.Shelf → ⊥ }
    ensures held { IsErrOf result Stop.Sink → 0 < length text.new.items }
    ensures sink_cause { IsErrOf result Stop.Sink → Rose (W.faults out.old) (W.faults out.new) }
    ensures sink_faults { W.faults out.old ≤ W.faults out.new }
    ensures grows { Grows (W.written out.old) (W.written out.new) }
{
    let name = name_of_routers(alloc)?;
    let mut answers = 0;
    let mut refused = 0;
    for accepted in 0..count {
        let found = serve_next(alloc, service, &name, links, out, text)?;
        match found {
            Some(outcome) => {
                answers += outcome.answers;
                refused += count_lines(outcome);
            }
            None => {
                return Ok(Served {
                    accepted,
                    answers,
                    refused: refused + 1,
                    reached: false,
                });
            }
        }
    }
    Ok(Served {
        accepted: count,
        answers,
        refused,
        reached: true,
    })
}

// Writes the text that is held, waits for a router, serves it, and reports what came of it. There is none where the attempt failed.
fn serve_next<K: Links, W: Sink>(
    alloc: Global,
    service: Service<'_>,
    name: &Name,
    links: &mut K,
    out: &mut W,
    text: &mut Vec<u8>,
) -> Result<Option<Outcome>, Stop>
    requires { name.now ≡ serve_name }
    ensures serves { IfOk result (λ found. TurnedAs
        (K.attempts links.old) (K.attempts links.new) (K.wire links.new)
        service.entry.cache.now service.entry.line service.entry.place.now found
        (append_known (W.written out.old) text.old.items)
        (append_known (W.written out.new) text.new.items)) }
    ensures few { IfOk result (λ found. IfSome found (λ outcome. outcome.answers ≤ 65536)) }
    ensures halts { OnErr result (TurnHalted
        (K.attempts links.old) (K.attempts links.new) (K.wire links.new)
        service.entry.cache.now service.entry.place.now
        (append_known (W.written out.old) text.old.items)
        (append_known (W.written out.new) text.new.items)) }
    ensures attempts { AddsAttempts (K.wire links.old) (K.attempts links.old) (K.attempts links.new) }
    ensures others { Spares (λ other. other < length (K.standings links.old))
        (K.wire links.old) (K.wire links.new) (K.standings links.old) (K.standings links.new) }
    ensures broke { BreaksByFault (K.faults links.old) (K.faults links.new)
        (K.standings links.old) (K.standings links.new) }
    ensures unreachable { IfOk result (λ found. found ≡ None
        → Rose (K.faults links.old) (K.faults links.new)) }
    ensures no_shelf { IsErrOf result Stop.Shelf → ⊥ }
    ensures held { IsErrOf result Stop.Sink → 0 < length text.new.items }
    ensures sink_cause { IsErrOf result Stop.Sink → Rose (W.faults out.old) (W.faults out.new) }
    ensures sink_faults { W.faults out.old ≤ W.faults out.new }
    ensures grows { Grows (W.written out.old) (W.written out.new) }
{
    pour(out, text)?;
    match links.accept(service.place) {
        Ok(link) => {
            let outcome = serve_router(alloc, service.cache, link, links)?;
            put_outcome(text, service.line, name, outcome)?;
            Ok(Some(outcome))
        }
        Err(_) => {
            put_feed(text, service.line, name, FeedEnd::Unreachable)?;
            Ok(None)
        }
    }
}
