//! The attribute Only-to-Customer that each route has by its last announcement.
ghost use Rattle.std.specs.Prelude.{◌≡◌, ◌↔◌, ◌<◌, ◌^◌, length, IfOk, IsTrue};
ghost use Rattle.std.specs.FinMap as map;
ghost use Rattle.otc_check.specs.Marks.{mark_of, noted_by};

use crate::marks_iter::MarksIter;
use crate::noting::note_all;
use av_base::NoMemory;
use path_model::{Key, Noted, Otc};
use route_map::RouteMap;
use std::alloc::Global;
use std::marker::Model;

/// The attribute Only-to-Customer of each route's last announcement (RFC 9234, section 5). Only routes that have the attribute are held,
/// each as in a [`RouteMap`] with values of 8 bytes: in a peer with many of them 13 bytes or so for IPv4, and some 620 for a peer's first.
#[derive(Drop)]
pub struct Marks {
    // none is `Absent`
    held: RouteMap<Otc>,
}

impl Model for Marks {
    ghost use Rattle.otc_check.specs.Codes.{coded_marked};
    ghost use Rattle.otc_check.specs.Marks.{Marked, marks_of};

    ghost Value = { Marked };

    ghost coded = { coded_marked };

    ghost view = { λ m. marks_of m.held };
}

impl Marks {
    /// No marks. It takes no memory.
    pub fn new(alloc: Global) -> Marks
        ensures { result ≡ map.empty }
    {
        Marks {
            held: RouteMap::new(alloc),
        }
    }

    /// Whether no route has the attribute.
    pub fn is_empty(&self) -> bool
        ensures { IsTrue result ↔ (self.now ≡ map.empty) }
    {
        self.held.len() == 0
    }

    /// The attribute of a route; `Absent` where the route has none, and where there is no such route.
    pub fn of(&self, key: &Key) -> Otc
        ensures { result ≡ mark_of self.now key.now }
    {
        match self.held.get(key) {
            None => Otc::Absent,
            Some(otc) => *otc,
        }
    }

    /// The routes that have the attribute, in key order, each with it.
    pub fn iter(&self) -> MarksIter<'_>
        ensures whole { result ≡ map.entries self.now }
        ensures few { length result < 2 ^ 63 }
    {
        MarksIter {
            rest: self.held.iter(),
        }
    }

    /// The marks after some changes, each announcement with its note; one that had none would count as without the attribute. Where no
    /// route has the attribute and no announcement has it, the work doesn't grow with the changes. Else a change costs a look-up, and a
    /// peer's end costs one for each of its routes that have it.
    pub fn apply(mut self, noted: &Noted) -> Result<Marks, NoMemory>
        ensures { IfOk result (λ marks.
            marks ≡ noted_by noted.now.changes noted.now.notes self) }
    {
        if self.is_empty() && noted.notes.are_absent() {
            return Ok(self);
        }
        note_all(&mut self.held, noted)?;
        Ok(self)
    }
}
