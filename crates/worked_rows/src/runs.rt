//! A run over the forms in memory, from what it is given to what it wrote and sent.
ghost use Rattle.std.specs.Prelude.{◌≡◌};

use crate::given::Given;
use crate::vectors::Named;
use aspa_top::run;
use av_base::{Links, MemLinks, MemShelf, MemSink, MemSource, NoMemory, Plan, PlanStep, Steps};
use std::alloc::Global;
use std::marker::Brand;
use std::sync::ledger::{Blank, Ledger};

/// How a run ended: its status, what it wrote, and what it sent on each of its connections.
#[derive(Drop)]
pub struct Ended {
    pub status: u8,
    pub text: Vec<u8>,
    pub sent: Vec<Vec<u8>>,
}

/// Makes a run.
pub fn outcome(alloc: Global, given: &Given) -> Result<Ended, NoMemory> {
    let plans = &given.plans;
    let mut source = MemSource::new(alloc, &given.script, Plan::new(alloc, &plans.script)?)?;
    let mut shelf = shelf_of(alloc, &given.files, &plans.shelf)?;
    let mut links = links_of(alloc, given, &plans.links)?;
    let mut sink = MemSink::new(alloc, Plan::new(alloc, &plans.sink)?);
    let words = &given.words;
    let status = status_of(alloc, words, &mut source, &mut shelf, &mut links, &mut sink);
    Ok(Ended {
        status,
        text: Vec::from_slice(alloc, sink.written())?,
        sent: sent_on(alloc, &mut links)?,
    })
}

fn shelf_of(alloc: Global, files: &[Named], plan: &[PlanStep]) -> Result<MemShelf, NoMemory> {
    let mut shelf = MemShelf::new(alloc, Plan::new(alloc, plan)?);
    for file in files {
        shelf.put(file.name.as_str(), &file.bytes)?;
    }
    Ok(shelf)
}

fn links_of(alloc: Global, given: &Given, plan: &[PlanStep]) -> Result<MemLinks, NoMemory> {
    let mut links = MemLinks::new(alloc, Plan::new(alloc, plan)?);
    for next in given.coming.iter() {
        links.put(next.name.as_str(), &next.bytes)?;
    }
    put_callers(&mut links, &given.callers)?;
    Ok(links)
}

// Adds what callers send, each at its place.
fn put_callers(links: &mut MemLinks, callers: &[Named]) -> Result<(), NoMemory> {
    for caller in callers {
        links.put_caller(caller.name.as_str(), &caller.bytes)?;
    }
    Ok(())
}

// What was sent on each connection. One more of them is made, since its number tells how many there were; behind a plan's end that can't
// fail but for want of memory.
fn sent_on(alloc: Global, links: &mut MemLinks) -> Result<Vec<Vec<u8>>, NoMemory> {
    links.put("", b"")?;
    let Ok(count) = links.connect("") else {
        return Err(NoMemory);
    };
    let mut all = Vec::new(alloc);
    for link in 0..count {
        all.push(Vec::from_slice(alloc, links.sent(link))?)?;
    }
    Ok(all)
}

// Runs with a counter that is made here.
fn status_of(
    alloc: Global,
    words: &Vec<String>,
    script: &mut MemSource,
    shelf: &mut MemShelf,
    links: &mut MemLinks,
    sink: &mut MemSink,
) -> u8 {
    run_counted::<Brand>(alloc, words, script, shelf, links, sink, Blank::new(1))
}

// Runs with a counter of steps of its own.
fn run_counted<L: Ledger>(
    alloc: Global,
    words: &Vec<String>,
    script: &mut MemSource,
    shelf: &mut MemShelf,
    links: &mut MemLinks,
    sink: &mut MemSink,
    blank: Blank,
) -> u8
    requires name { blank.name ≡ L.name }
    requires parts { blank.parts ≡ L.parts }
    requires one { L.parts ≡ 1 }
{
    let mut steps = Steps::<L>::new(blank);
    run(alloc, words, script, shelf, links, sink, &mut steps)
}
