//! Feeds by their names.
ghost use Rattle.std.specs.Prelude.{◌≡◌, ◌≢◌, ℕ, ◌+◌, ◌^◌, ◌<◌, Some, None, is_some, true, IfOk, IfSome, IfNone, OnOk, OnErr};
ghost use Rattle.connection_calls.specs.Connection.{Spares};
ghost use Rattle.connection_calls.specs.Faults.{BreaksByFault};
ghost use Rattle.report_text.specs.declared.feed.FeedEnd.TheVariants.{Unreachable};
ghost use Rattle.rtr_client.specs.declared.telling.Telling.TheVariants.{End as FeedEnds};
ghost use Rattle.rtr_client.specs.Holding.{IsNoFeeds, IsSound, feed_in};
ghost use Rattle.rtr_client.specs.Lines.{units_of};
ghost use Rattle.rtr_client.specs.Named.{BeganNamed, Puts, Same, WasHeld, WorkedNamed};
ghost use Rattle.rtr_client.specs.Steps.{StaysBeside, made_in};

use crate::feed::{Feeds, OpenFeed};
use crate::telling::Telling;
use crate::working::{Work, work_on};
use analyser::Progress;
use av_base::{Links, NoMemory, Steps};
use path_model::Name;
use std::alloc::Global;
use std::mem;
use std::sync::ledger::Ledger;

/// Does what the line asks for with the feed of a name.
pub(crate) fn work_named<K: Links, L: Ledger>(
    alloc: Global,
    name: &Name,
    work: Work,
    feeds: &mut Feeds,
    progress: &mut Progress,
    links: &mut K,
    steps: &mut Steps<L>,
) -> Result<Option<Telling>, NoMemory>
    requires sound { IsSound (K.standings links.old) (2 ^ 61) feeds.old }
    ensures works { IfOk result (λ told. WorkedNamed (K.attempts links.old) (K.attempts links.new)
        (K.wire links.old) (K.wire links.new) name.now work feeds.old feeds.new
        (made_in progress.old) told (made_in progress.new) steps.old steps.new) }
    ensures halts { OnErr result (BeganNamed (K.attempts links.old) (K.attempts links.new)
        (K.wire links.old) (K.wire links.new) name.now work feeds.old
        (made_in progress.old) steps.old steps.new) }
    ensures stays { StaysBeside progress.old progress.new }
    ensures sound { OnOk result ((most : ℕ)
        → IsSound (K.standings links.old) most feeds.old
        → IsSound (K.standings links.new) (most + units_of work) feeds.new) }
    ensures reached { IfOk result (λ told. told ≢ Some (FeedEnds Unreachable)) }
    ensures others { Spares (IsNoFeeds (K.standings links.old) feeds.old)
        (K.wire links.old) (K.wire links.new) (K.standings links.old) (K.standings links.new) }
    ensures attempts { K.attempts links.new ≡ K.attempts links.old }
    ensures broke { BreaksByFault (K.faults links.old) (K.faults links.new)
        (K.standings links.old) (K.standings links.new) }
{
    match lend(feeds, name) {
        None => Ok(Some(Telling::NoName)),
        Some(None) => Ok(Some(Telling::StreamOver)),
        Some(Some(feed)) => {
            let (slot, told) = work_on(alloc, name, feed, work, progress, links, steps)?;
            give(feeds, name, slot);
            Ok(told)
        }
    }
}

// Takes a feed out, so that it may be worked on. Its name stays, as if it were over.
fn lend(feeds: &mut Feeds, name: &Name) -> Option<Option<OpenFeed>>
    ensures was { result ≡ feed_in feeds.old name.now }
    ensures now { IfSome result (λ slot. Puts feeds.old feeds.new name.now None) }
    ensures same { IfNone result (Same feeds.old feeds.new) }
{
    match feeds.held.get_mut(name) {
        Some(slot) => Some(mem::replace(slot, None)),
        None => None,
    }
}

/// Puts a feed back under its name.
pub(crate) fn give(feeds: &mut Feeds, name: &Name, slot: Option<OpenFeed>)
    requires { is_some (feed_in feeds.old name.now) ≡ true }
    ensures { Puts feeds.old feeds.new name.now slot }
{
    if let Some(place) = feeds.held.get_mut(name) {
        *place = slot;
    }
}

/// Brings a name into use and takes its feed out, if there is one.
pub(crate) fn hold(feeds: &mut Feeds, name: &Name) -> Result<Option<OpenFeed>, NoMemory>
    ensures was { IfOk result (λ slot. WasHeld (feed_in feeds.old name.now) slot) }
    ensures now { OnOk result (Puts feeds.old feeds.new name.now None) }
{
    let key = name.copy()?;
    match feeds.held.insert(key, None)? {
        Some(slot) => Ok(slot),
        None => Ok(None),
    }
}
