//! The store.
ghost use Rattle.std.specs.Prelude.{◌≡◌, ◌<◌, ◌≤◌, ◌^◌, ◌+◌, ◌-◌, [], length, IfNone, IfSome, IfOk, OnOk, None};
ghost use Rattle.std.specs.FinMap as fin;
ghost use Rattle.std.specs.List.Sorted.{IsStrictlySortedBy};
ghost use Rattle.std.specs.Map.{keys_of};
ghost use Rattle.attestations.specs.CurrentTable.{Parts};
ghost use Rattle.path_model.specs.Key.{peer_cmp};
ghost use Rattle.path_model.specs.Roles.{set_role};
ghost use Rattle.path_model.specs.Routes.{performed};
ghost use Rattle.route_map.specs.Flat.{HaveRoutes};
ghost use Rattle.vap_table.specs.Change.{Alters};
ghost use Rattle.rib_store.specs.State.{no_state, AreRows};
ghost use Rattle.rib_store.specs.Altered.{IsAltered};
ghost use Rattle.rib_store.specs.Changes.{AreChanges, IsMarked};
ghost use Rattle.rib_store.specs.ChangesLeft.{changes_left};
ghost use Rattle.rib_store.specs.Rows.{all_rows, peers_left, rows_left};
ghost use Rattle.rib_store.specs.Shown.{IsShown};
ghost use Rattle.rib_store.specs.Counts.{AreCounts};
ghost use Rattle.rib_store.specs.Touched.{announced, IsWithinTouched};
ghost use Rattle.rib_store.specs.Trails.{trails_left};

use crate::counts::Counts;
use crate::journal::{Journal, Left};
use crate::marks::Marks;
use crate::merged::Merged;
use crate::rib::{Rib, RibPeers, Shown};
use crate::routing::{Routing, judged_anew};
use crate::trails::Trails;
use av_base::{NoMemory, Steps};
use path_model::{Changes, Key, Role, Roles};
use route_map::RouteMap;
use shared_cases::{FoundCases, Grounds, SharedCases};
use std::alloc::Global;
use std::marker::Model;
use std::sync::ledger::Ledger;
use vap_table::{TableChange, Vaps};

/// All that attests, the roles, and the routes of all peers (RFC 4271, section 3.2), with their verdicts. Routes from one peer AS with one
/// path share a case, and an event judges anew only the cases that it touches, each once.
pub struct RibStore {
    pub(crate) alloc: Global,
    pub(crate) table: Vaps,
    pub(crate) roles: Roles,
    // the routes with their cases and marks; a call of `len` of the routes brings the order of the keys into a proof
    pub(crate) routing: Routing,
}

/// Written by hand and not derived: a check of a function that lets a store go then has one call there, and not each field.
impl Drop for RibStore {
    fn drop(self) {
        let RibStore {
            alloc: _alloc,
            table: _table,
            roles: _roles,
            routing: _routing,
        } = self;
    }
}

/// A contract sees the state of the analysis, and the cases.
impl Model for RibStore {
    ghost use Rattle.rib_store.specs.Cased.{routes_by, marked_by};
    ghost use Rattle.rib_store.specs.Codes.{coded_stored};
    ghost use Rattle.rib_store.specs.Routing.{AreRouted};
    ghost use Rattle.rib_store.specs.Stored.{Stored};

    ghost Value = { Stored };

    ghost coded = { coded_stored };

    ghost view = { λ s. record {
      state = record {
        parts = s.table;
        roles = s.roles;
        routes = routes_by s.routing.cases s.routing.routes;
        marked = marked_by s.routing.marks.is_marked s.routing.cases s.routing.routes
            s.routing.marks.notes;
      };
      cases = s.routing.cases;
    } };

    ghost invariant = { λ s. AreRouted s.table s.roles s.routing };
}

impl RibStore {
    /// Nothing attests, no role is set, and there is no route. It takes no memory.
    pub fn new(alloc: Global) -> RibStore
        ensures state { result.state ≡ no_state }
        ensures cases { result.cases ≡ [] }
    {
        RibStore {
            alloc,
            table: Vaps::new(alloc),
            roles: Roles::new(alloc),
            routing: Routing {
                routes: RouteMap::new(alloc),
                cases: SharedCases::new(alloc),
                marks: Marks::new(alloc),
            },
        }
    }

    /// Performs changes of the routes, from the first to the last. The end of a peer's session costs what the peer's routes cost; while
    /// nothing was ever marked the numbers of their cases are brought together, with 4 bytes a route and what [`SharedCases::leave_all`]
    /// takes. It judges at most once for each announcement, and not where another route has the case already. Where there is no memory,
    /// the routes are given up, and nothing is promised of the state.
    pub fn apply_routes<L: Ledger>(
        &mut self,
        changes: Changes,
        steps: &mut Steps<L>,
    ) -> Result<(), NoMemory>
        ensures state { OnOk result (self.new.state
            ≡ record self.old.state { routes = performed changes self.old.state.routes }) }
        ensures ticks { steps.new ≤ steps.old + announced changes }
    {
        let on = Grounds {
            table: &self.table,
            roles: &self.roles,
        };
        match self.routing.perform_all(self.alloc, &changes, &on, steps) {
            Ok(()) => Ok(()),
            Err(none) => {
                self.routing = Routing::new(self.alloc);
                Err(none)
            }
        }
    }

    /// Changes what attests. It visits only the customers that the change names and at most the hops of those whose row moved, and judges
    /// anew, once each, the cases with a hop of which something else is attested. The first change that meets cases lists the hops of all.
    pub fn apply_table<L: Ledger>(
        self,
        change: TableChange,
        steps: &mut Steps<L>,
    ) -> Result<RibStore, NoMemory>
        ensures state { IfOk result (λ s. IsAltered self.state change s.state) }
        ensures ticks { (parts : Parts) → Alters self.state.parts change parts
            → IsWithinTouched self.state (record self.state { parts = parts })
            (steps.new - steps.old) }
    {
        let RibStore {
            alloc,
            table,
            roles,
            routing,
        } = self;
        let Routing {
            routes,
            cases,
            marks,
        } = routing;
        let _length = routes.len();
        cases.are_distinct();
        let (table, moves) = table.change(change)?;
        let on = Grounds {
            table: &table,
            roles: &roles,
        };
        let (cases, differing) = cases.follow_table(&moves, &on, steps)?;
        let routing = judged_anew(routes, cases, marks, &differing)?;
        Ok(RibStore {
            alloc,
            table,
            roles,
            routing,
        })
    }

    /// Sets the role of an AS. Where it had another one, the cases of that AS are judged anew, once each.
    pub fn set_role<L: Ledger>(
        self,
        asn: u32,
        role: Role,
        steps: &mut Steps<L>,
    ) -> Result<RibStore, NoMemory>
        ensures state { IfOk result (λ s.
            s.state ≡ record self.state { roles = set_role self.state.roles asn role }) }
        ensures ticks { IsWithinTouched self.state
            (record self.state { roles = set_role self.state.roles asn role })
            (steps.new - steps.old) }
    {
        let RibStore {
            alloc,
            table,
            mut roles,
            routing,
        } = self;
        let Routing {
            routes,
            cases,
            marks,
        } = routing;
        let _length = routes.len();
        let before = roles.of(asn);
        roles.set(asn, role)?;
        let on = Grounds {
            table: &table,
            roles: &roles,
        };
        let (cases, differing) = cases.follow_role(asn, before, &on, steps)?;
        let routing = judged_anew(routes, cases, marks, &differing)?;
        Ok(RibStore {
            alloc,
            table,
            roles,
            routing,
        })
    }

    /// Sets the role of each AS that has none of its own. Where they had another one, the cases of these ASes are judged anew, once each.
    /// It takes the time of two look-ups for each such AS that has routes and of these cases, and where the default is the same as before, none.
    pub fn set_default<L: Ledger>(
        self,
        role: Role,
        steps: &mut Steps<L>,
    ) -> Result<RibStore, NoMemory>
        ensures state { IfOk result (λ s.
            s.state ≡ record self.state { roles = record self.state.roles { default = role } }) }
        ensures ticks { IsWithinTouched self.state
            (record self.state { roles = record self.state.roles { default = role } })
            (steps.new - steps.old) }
    {
        let RibStore {
            alloc,
            table,
            mut roles,
            routing,
        } = self;
        let Routing {
            routes,
            cases,
            marks,
        } = routing;
        let _length = routes.len();
        let before = roles.default();
        roles.set_default(role);
        let on = Grounds {
            table: &table,
            roles: &roles,
        };
        let (cases, differing) = cases.follow_default(before, &on, steps)?;
        let routing = judged_anew(routes, cases, marks, &differing)?;
        Ok(RibStore {
            alloc,
            table,
            roles,
            routing,
        })
    }

    /// One row for each route, in key order, with its current verdict. It takes no memory.
    pub fn rows(&self) -> Rib<'_>
        ensures rows { AreRows self.now.state (rows_left result) }
        ensures few { length (rows_left result) < 2 ^ 63 }
    {
        Rib {
            rest: self.routing.routes.iter(),
            cases: &self.routing.cases,
        }
    }

    /// The same rows, by their peers, each once: who writes them tells each peer once. It takes no memory.
    pub fn rows_by_peer(&self) -> RibPeers<'_>
        ensures rows { AreRows self.now.state (all_rows (peers_left result)) }
        ensures few { length (all_rows (peers_left result)) < 2 ^ 63 }
        ensures peers { IsStrictlySortedBy peer_cmp (keys_of (peers_left result)) }
        ensures some { HaveRoutes (peers_left result) }
    {
        RibPeers {
            rest: self.routing.routes.by_peer(),
            cases: &self.routing.cases,
        }
    }

    /// Each route's key with its path, in key order. It takes no memory, and judges nothing.
    pub fn trails(&self) -> Trails<'_>
        ensures { trails_left result ≡ fin.entries self.now.state.routes }
    {
        Trails {
            rest: self.routing.routes.iter(),
            cases: &self.routing.cases,
        }
    }

    /// The route of a key as it stands; `None` exactly where the key has none. It takes no memory.
    pub fn look(&self, key: &Key) -> Option<Shown<'_>>
        ensures none { IfNone result (fin.get self.now.state.routes key.now ≡ None) }
        ensures some { IfSome result (IsShown self.now.state key.now) }
    {
        let number = self.routing.routes.get(key)?;
        let case = self.routing.cases.get(*number as usize)?;
        let role = self.roles.of(key.peer.asn);
        Some(Shown::of(case, role))
    }

    /// The number of routes, and of those with each current verdict. It takes no memory, and visits no route.
    pub fn counts(&self) -> Counts
        ensures { AreCounts self.now.state result }
    {
        Counts::of(self.routing.routes.len(), self.routing.cases.totals())
    }

    /// Each key whose verdict or presence differs from the marked one, in key order. At the start nothing is marked. It takes no
    /// memory. Where [`RibStore::gather`] came after the last event, it takes the time of a look-up for each key whose route changed since the
    /// mark or whose case got another verdict; else, and before the first mark, that of all routes.
    pub fn changes(&self) -> Journal<'_>
        ensures changes { AreChanges self.now.state (changes_left result) }
        ensures few { length (changes_left result) < 2 ^ 64 }
    {
        let _length = self.routing.routes.len();
        if self.routing.marks.is_marked && self.routing.marks.pending.is_empty() {
            self.routing.cases.are_settled();
            return Journal {
                left: Left::OfNotes(self.routing.marks.notes.iter()),
                routes: &self.routing.routes,
                cases: &self.routing.cases,
                is_marked: self.routing.marks.is_marked,
            };
        }
        Journal {
            left: Left::OfAll(Merged::new(
                self.routing.marks.notes.iter(),
                self.routing.routes.iter(),
            )),
            routes: &self.routing.routes,
            cases: &self.routing.cases,
            is_marked: self.routing.marks.is_marked,
        }
    }

    /// The store as it is, with the keys of the cases gathered that got another verdict since verdicts were marked, so that [`RibStore::changes`]
    /// goes over the changed keys alone. It takes the time and the memory of these keys, with a look-up for each such case and each peer that has
    /// one of its keys, and the first time the time and the memory of all routes. The hops of the cases are listed too: who lists changes is
    /// about to change what attests ([`SharedCases::list_hops`]).
    pub fn gather(self) -> Result<RibStore, NoMemory>
        ensures { IfOk result (λ s. s ≡ self) }
    {
        let RibStore {
            alloc,
            table,
            roles,
            routing,
        } = self;
        let Routing {
            routes,
            mut cases,
            mut marks,
        } = routing;
        marks.gather(alloc, &routes, &cases)?;
        cases.list_hops()?;
        Ok(RibStore {
            alloc,
            table,
            roles,
            routing: Routing {
                routes,
                cases,
                marks,
            },
        })
    }

    /// The current verdicts are the marked ones from now on. It takes no memory, and the time of the cases that got another verdict and of
    /// the keys that were noted since the last mark.
    pub fn mark(self) -> RibStore
        ensures { IsMarked self.state result.state }
    {
        let RibStore {
            alloc,
            table,
            roles,
            routing,
        } = self;
        let Routing {
            routes,
            cases,
            marks,
        } = routing;
        let _length = routes.len();
        let cases = cases.mark();
        let marks = Marks {
            is_marked: true,
            notes: RouteMap::new(alloc),
            pending: FoundCases::new(alloc),
            keys: marks.keys,
        };
        RibStore {
            alloc,
            table,
            roles,
            routing: Routing {
                routes,
                cases,
                marks,
            },
        }
    }
}
