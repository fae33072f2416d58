//! What a line only asks, of all that the lines before have left.
ghost use Rattle.std.specs.Prelude.{◌≡◌, Ok};
ghost use Rattle.origin_validation.specs.Rows.{AreOriginRows};
ghost use Rattle.listings.specs.Listing.{Lists, pouring};
ghost use Rattle.listings.specs.Neighbours.{AreNeighboursOf, neighbour_row};
ghost use Rattle.listings.specs.Origins.{origin_row};
ghost use Rattle.aspa_top.specs.declared.task.Question.TheVariants.{Explain, Why};
ghost use Rattle.aspa_top.specs.declared.task.Task.TheVariants.{Answer};
ghost use Rattle.aspa_top.specs.Asked.{ListsAttested};
ghost use Rattle.aspa_top.specs.Passed.{KeepsAll, told};
ghost use Rattle.aspa_top.specs.Performing.{Did};
ghost use Rattle.aspa_top.specs.Standing.{IsBegun};

use crate::effects::refuse;
use crate::outside::Outside;
use crate::task::Question;
use crate::working::Working;
use analyser::Progress;
use av_base::{Links, Shelf, Sink, Stop};
use listings::{
    put_attests, put_attests_of, put_details, put_explained, put_leaks, put_neighbours,
    put_origins, put_peers, put_rows, put_silent, put_suspects, summary_of,
};
use path_model::Key;
use report_text::{Cause, Place, put_summary, put_why};
use std::alloc::Global;
use std::sync::ledger::Ledger;
use vap_table::Vaps;

/// Adds the text that answers a question, and changes nothing; where it is refused, the line that says so.
#[inline(never)]
pub(crate) fn answer<F: Shelf, K: Links, W: Sink, L: Ledger>(
    alloc: Global,
    mut working: Working,
    question: Question,
    outside: &mut Outside<F, K, W, L>,
) -> Result<Working, Stop>
    requires begun { IsBegun (told F.Shelf K.Links W.Sink outside.old) working }
    ensures keeps { KeepsAll F.Shelf K.Links W.Sink outside.old outside.new }
    ensures did { Did working (Ok (Answer question))
        (told F.Shelf K.Links W.Sink outside.old)
        (told F.Shelf K.Links W.Sink outside.new) result }
{
    let store = working.progress.analyser.store();
    match question {
        Question::Report => {
            put_rows(store, outside.out, outside.text)?;
            Ok(working)
        }
        Question::Origins => {
            list_origins(&mut working.progress, outside.out, outside.text)?;
            Ok(working)
        }
        Question::Leaks => {
            put_leaks(
                &working.progress.marks,
                store.roles(),
                outside.out,
                outside.text,
            )?;
            Ok(working)
        }
        Question::Suspects => {
            put_suspects(alloc, store, outside.out, outside.text)?;
            Ok(working)
        }
        Question::Peers => {
            put_peers(alloc, store, outside.out, outside.text)?;
            Ok(working)
        }
        Question::Summary => {
            put_summary(
                outside.text,
                summary_of(store, working.progress.passed, working.progress.refused),
            )?;
            Ok(working)
        }
        Question::Routes(conditions) => {
            put_details(store, &conditions, outside.out, outside.text)?;
            Ok(working)
        }
        Question::Why(key) => show_reason(working, &key, outside),
        Question::Explain(key) => explain_route(working, &key, outside),
        Question::Attests(customer) => {
            list_attested(store.table(), customer, outside.out, outside.text)?;
            Ok(working)
        }
        Question::Neighbours(asn) => {
            list_neighbours(alloc, &mut working.progress, asn, outside.out, outside.text)?;
            Ok(working)
        }
        Question::Silent => {
            put_silent(alloc, store, outside.out, outside.text)?;
            Ok(working)
        }
    }
}

// Lists the origins of all routes; states that are looked up are held from then on.
fn list_origins<W: Sink>(
    progress: &mut Progress,
    out: &mut W,
    text: &mut Vec<u8>,
) -> Result<(), Stop>
    ensures same { progress.new ≡ progress.old }
    ensures lists { Lists (AreOriginRows progress.old.analyser.routes progress.old.origins) origin_row
        (pouring W.Sink out.old text.old.items) (pouring W.Sink out.new text.new.items) result }
{
    put_origins(progress.analyser.store(), &mut progress.origins, out, text)
}

// Adds why a route has its verdict; where there is no such route, the line that says so.
fn show_reason<F: Shelf, K: Links, W: Sink, L: Ledger>(
    working: Working,
    key: &Key,
    outside: &mut Outside<F, K, W, L>,
) -> Result<Working, Stop>
    requires begun { IsBegun (told F.Shelf K.Links W.Sink outside.old) working }
    ensures keeps { KeepsAll F.Shelf K.Links W.Sink outside.old outside.new }
    ensures did { Did working (Ok (Answer (Why key.now)))
        (told F.Shelf K.Links W.Sink outside.old)
        (told F.Shelf K.Links W.Sink outside.new) result }
{
    let Some(shown) = working.progress.analyser.store().look(key) else {
        return Ok(refuse(working, Place::Line, Cause::NoRoute, outside.text)?);
    };
    put_why(outside.text, shown.verdict, shown.witness)?;
    Ok(working)
}

// Adds that and what is attested of each hop of its path; where there is no such route, the line that says so.
fn explain_route<F: Shelf, K: Links, W: Sink, L: Ledger>(
    working: Working,
    key: &Key,
    outside: &mut Outside<F, K, W, L>,
) -> Result<Working, Stop>
    requires begun { IsBegun (told F.Shelf K.Links W.Sink outside.old) working }
    ensures keeps { KeepsAll F.Shelf K.Links W.Sink outside.old outside.new }
    ensures did { Did working (Ok (Answer (Explain key.now)))
        (told F.Shelf K.Links W.Sink outside.old)
        (told F.Shelf K.Links W.Sink outside.new) result }
{
    let store = working.progress.analyser.store();
    let Some(shown) = store.look(key) else {
        return Ok(refuse(working, Place::Line, Cause::NoRoute, outside.text)?);
    };
    let table = store.table();
    put_explained(
        table,
        shown.trail,
        shown.verdict,
        shown.witness,
        outside.out,
        outside.text,
    )?;
    Ok(working)
}

// Lists the current table as a script, or where the row of this customer comes from.
fn list_attested<W: Sink>(
    table: &Vaps,
    customer: Option<u32>,
    out: &mut W,
    text: &mut Vec<u8>,
) -> Result<(), Stop>
    ensures { ListsAttested table.now customer
        (pouring W.Sink out.old text.old.items) (pouring W.Sink out.new text.new.items) result }
{
    match customer {
        None => put_attests(table, out, text),
        Some(customer) => put_attests_of(table, customer, out, text),
    }
}

// Lists the ASes beside one; the hops are listed by then.
fn list_neighbours<W: Sink>(
    alloc: Global,
    progress: &mut Progress,
    asn: u32,
    out: &mut W,
    text: &mut Vec<u8>,
) -> Result<(), Stop>
    ensures same { progress.new ≡ progress.old }
    ensures lists { Lists (AreNeighboursOf progress.old.analyser asn) neighbour_row
        (pouring W.Sink out.old text.old.items) (pouring W.Sink out.new text.new.items) result }
{
    progress.analyser.list_hops()?;
    put_neighbours(alloc, progress.analyser.store(), asn, out, text)
}
