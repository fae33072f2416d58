//! Notes and routes in one key order.
ghost use Rattle.std.specs.Prelude.{◌≡◌, None, Some};
ghost use Rattle.std.specs.Iterator.{YieldsFirstBy, item_count};
ghost use Rattle.rib_store.specs.Merge.{merge, merged_left, waiting};

use path_model::{Key, Verdict};
use route_map::Iter;
use std::cmp::Ordering;

// What is noted of a key, and the number of its route's case.
#[derive(Clone, Copy, Debug)]
pub(crate) struct Row {
    // what was marked of it, where its route changed since: none, where it had no route
    pub(crate) noted: Option<Option<Verdict>>,
    pub(crate) case: Option<u32>,
}

// The keys of notes and of routes in key order, each with what either has.
#[derive(Drop)]
pub(crate) struct Merged<'a> {
    // the first of each that is left is taken out ahead
    note: Option<(Key, Option<Verdict>)>,
    notes: Iter<'a, Option<Verdict>>,
    route: Option<(Key, u32)>,
    routes: Iter<'a, u32>,
}

impl<'a> Merged<'a> {
    // All keys of these notes and routes.
    pub(crate) fn new(mut notes: Iter<'a, Option<Verdict>>, mut routes: Iter<'a, u32>) -> Merged<'a>
        ensures { merged_left result ≡ merge notes.entry routes.entry }
    {
        let note = next_note(&mut notes);
        let route = next_route(&mut routes);
        Merged {
            note,
            notes,
            route,
            routes,
        }
    }
}

fn next_note(notes: &mut Iter<'_, Option<Verdict>>) -> Option<(Key, Option<Verdict>)>
    ensures { waiting result notes.new ≡ notes.old }
{
    match notes.next() {
        None => None,
        Some((key, noted)) => Some((key, *noted)),
    }
}

fn next_route(routes: &mut Iter<'_, u32>) -> Option<(Key, u32)>
    ensures { waiting result routes.new ≡ routes.old }
{
    match routes.next() {
        None => None,
        Some((key, number)) => Some((key, *number)),
    }
}

impl<'a> Iterator for Merged<'a> {
    type Item = (Key, Row);

    ghost next_gives = { YieldsFirstBy (λ row. row) merged_left };

    ghost remaining = { item_count merged_left };

    fn next(&mut self) -> Option<(Key, Row)> {
        match (self.note, self.route) {
            (None, None) => None,
            (Some((key, noted)), None) => {
                self.note = next_note(&mut self.notes);
                Some((key, noted_row(noted)))
            }
            (None, Some((key, case))) => {
                self.route = next_route(&mut self.routes);
                Some((key, route_row(case)))
            }
            (Some((key, noted)), Some((other, case))) => match key.cmp(&other) {
                Ordering::Less => {
                    self.note = next_note(&mut self.notes);
                    Some((key, noted_row(noted)))
                }
                Ordering::Equal => {
                    self.note = next_note(&mut self.notes);
                    self.route = next_route(&mut self.routes);
                    Some((
                        key,
                        Row {
                            noted: Some(noted),
                            case: Some(case),
                        },
                    ))
                }
                Ordering::Greater => {
                    self.route = next_route(&mut self.routes);
                    Some((other, route_row(case)))
                }
            },
        }
    }
}

fn noted_row(noted: Option<Verdict>) -> Row
    ensures { result ≡ record { noted = Some noted; case = None } }
{
    Row {
        noted: Some(noted),
        case: None,
    }
}

fn route_row(case: u32) -> Row
    ensures { result ≡ record { noted = None; case = Some case } }
{
    Row {
        noted: None,
        case: Some(case),
    }
}
