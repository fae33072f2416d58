//! Drawn events, each performed on the plain lists.
use crate::drawing::Draw;
use crate::plain::Plain;
use analyser::Event;
use attestations::Terms;
use av_base::NoMemory;
use path_model::Name;
use vap_table::TableChange;

/// Draws an event, and performs it on the plain lists.
pub fn next_event(draw: &mut Draw, plain: &mut Plain) -> Result<Event, NoMemory> {
    let asn = draw.asn();
    let kind = draw.four();
    let part = draw.four();
    match (kind, part) {
        (0 | 1, _) => change_routes(draw, plain),
        (2, _) => change_source(draw, plain, asn, part),
        (_, 0 | 1) => change_roles(draw, plain, asn, part),
        (_, _) => change_assertions(draw, plain, asn, part),
    }
}

fn change_routes(draw: &mut Draw, plain: &mut Plain) -> Result<Event, NoMemory> {
    let changes = draw.changes(plain.alloc)?;
    for batch in changes.batches() {
        plain.perform(batch)?;
    }
    Ok(Event::Routes(changes))
}

fn change_source(
    draw: &mut Draw,
    plain: &mut Plain,
    asn: u32,
    part: u32,
) -> Result<Event, NoMemory> {
    match part {
        0 => {
            plain.filtered.insert(asn)?;
            Ok(Event::Table(TableChange::Filter(asn)))
        }
        1 => {
            plain.filtered.remove(&asn);
            Ok(Event::Table(TableChange::Unfilter(asn)))
        }
        2 => {
            plain.moment = draw.moment();
            Ok(Event::Table(TableChange::At(plain.moment)))
        }
        _ => replace_source(draw, plain),
    }
}

fn replace_source(draw: &mut Draw, plain: &mut Plain) -> Result<Event, NoMemory> {
    let Some(name) = Name::new(plain.alloc, b"s")? else {
        return Err(NoMemory);
    };
    plain.source = draw.attestations(plain.alloc)?;
    let mut terms = Terms::new(plain.alloc);
    for one in &plain.source {
        terms.unite(one.customer, one.providers.as_slice(), one.until)?;
    }
    Ok(Event::Table(TableChange::Replace(name, terms)))
}

fn change_roles(
    draw: &mut Draw,
    plain: &mut Plain,
    asn: u32,
    part: u32,
) -> Result<Event, NoMemory> {
    let role = draw.role();
    if part == 0 {
        plain.roles.set(asn, role)?;
        return Ok(Event::Role(asn, role));
    }
    plain.roles.set_default(role);
    Ok(Event::DefaultRole(role))
}

fn change_assertions(
    draw: &mut Draw,
    plain: &mut Plain,
    asn: u32,
    part: u32,
) -> Result<Event, NoMemory> {
    if part != 2 {
        plain.asserted.remove(asn);
        return Ok(Event::Table(TableChange::Unassert(asn)));
    }
    let providers = draw.ases(plain.alloc, 2)?;
    plain.asserted.unite(asn, providers.as_slice())?;
    Ok(Event::Table(TableChange::Assert(asn, providers)))
}
