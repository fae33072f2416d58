//! The states of routes by the records that are held, each looked up once.
ghost use Rattle.std.specs.Prelude.{◌≡◌, IfOk, OnErr, OnOk};
ghost use Rattle.origin_model.specs.Current.{IsCurrent, no_parts};
ghost use Rattle.origin_model.specs.OriginState.{HasState};
ghost use Rattle.origin_validation.specs.Records.{PatchesSource, with_source};

use crate::held::{HeldStates, forget_differing, forget_hit, forget_patched, forget_replaced};
use crate::records::Records;
use crate::walk::Walk;
use av_base::NoMemory;
use origin_model::{OriginState, PrefixFilters, VrpChanges, VrpSet};
use path_model::{Name, Prefix};
use std::alloc::Global;
use std::collections::BTreeMap;
use std::marker::Model;

// So many pairs may be held, however few routes are listed.
const SPARE: u64 = 1000;

/// What says which payloads are current, and the states that were looked up by them: one for each pair of a prefix and an origin, which all
/// routes with this pair share. An event forgets the states of the pairs that it may concern, or all where that takes less time, and they
/// are looked up again when they are asked for next. A contract sees what says which payloads are current, and nothing of what is held.
#[derive(Drop)]
pub struct Origins {
    alloc: Global,
    records: Records,
    // an origin of 0 stands for none, too: AS 0 originates nothing, so that the states are the same
    held: HeldStates,
}

impl Model for Origins {
    ghost use Rattle.origin_model.specs.Current.{Parts};
    ghost use Rattle.origin_validation.specs.Held.{AreRight};

    ghost Value = { Parts };

    ghost view = { λ o. o.records };

    ghost invariant = { λ o. AreRight o.records o.held.entries };
}

impl Origins {
    /// No source, no filter and no assertion. It takes no memory.
    pub fn new(alloc: Global) -> Origins
        ensures { result ≡ no_parts }
    {
        Origins {
            alloc,
            records: Records::new(alloc),
            held: BTreeMap::new(alloc),
        }
    }

    /// The state of a route by its prefix and its origin, which is `None` where its path has an AS_SET or no AS (RFC 6811, section 2). It
    /// takes a look-up where the state of this pair is held, and else the time of [`Records::state`], once; then it is held.
    pub fn state(&mut self, prefix: &Prefix, origin: Option<u32>) -> Result<OriginState, NoMemory>
        ensures state { IfOk result (HasState (IsCurrent self.old) prefix.now origin) }
        ensures same { self.new ≡ self.old }
    {
        let pair = (*prefix, origin.unwrap_or(0));
        if let Some(state) = self.held.get(&pair).copied() {
            return Ok(state);
        }
        let state = self.records.state(prefix, Some(pair.1));
        self.held.insert(pair, state)?;
        Ok(state)
    }

    /// A walk along the states that are held. It takes no memory.
    pub fn walk(&self) -> Walk<'_>
        ensures { result ≡ self.now }
    {
        Walk::new(self, self.held.range(..))
    }

    // One that begins at a pair.
    pub(crate) fn walk_from(&self, pair: (Prefix, u32)) -> Walk<'_>
        ensures { result ≡ self.now }
    {
        Walk::new(self, self.held.range(pair..))
    }

    /// The source of this name has these payloads from now on. It takes the time of two look-ups for each payload that the source had or
    /// gets, and for each pair under one of those that come or go; or, where there are more than four times as many payloads as pairs are
    /// held, that of giving these back.
    pub fn replace(&mut self, name: Name, set: VrpSet) -> Result<(), NoMemory>
        ensures ok { OnOk result (self.new ≡ with_source self.old name set) }
        ensures err { OnErr result (self.new ≡ self.old) }
    {
        forget_replaced(&mut self.held, self.alloc, self.records.source(&name), &set);
        self.records.put(name, set)?;
        Ok(())
    }

    /// The source of this name has what the changes make of the payloads that it had, or of none if there was no such source. It takes the
    /// time of three look-ups for each change, and of two for each pair under a payload that comes or goes; a payload that the changes
    /// leave as it was forgets nothing. Where there is no memory, nothing is said of that source's payloads.
    pub fn patch(&mut self, name: Name, changes: VrpChanges) -> Result<(), NoMemory>
        ensures { OnOk result (PatchesSource self.old name changes self.new) }
    {
        forget_patched(
            &mut self.held,
            self.alloc,
            self.records.source(&name),
            &changes,
        );
        if let Err(none) = self.records.patch(name, &changes) {
            // some of the changes may have been made
            self.held.clear();
            return Err(none);
        }
        Ok(())
    }

    /// The SLURM file has these filters and asserted payloads from now on (RFC 8416, sections 3.3.1 and 3.4.1). It takes no memory, and the
    /// time of two look-ups for each assertion, and for each pair under the prefix of a filter that it had or gets or under an assertion
    /// that comes or goes. A filter with no prefix may concern any pair: then all are forgotten.
    pub fn slurm(&mut self, filters: PrefixFilters, assertions: VrpSet)
        ensures { self.new ≡ record self.old { filters = filters; assertions = assertions } }
    {
        forget_differing(&mut self.held, self.records.assertions(), &assertions);
        forget_hit(&mut self.held, self.records.filters());
        forget_hit(&mut self.held, &filters);
        self.records.amend(filters, assertions);
    }

    /// Forgets all that is held where it is more than twice as much as a list of so many routes can ask for, and some more, so that what is
    /// held doesn't grow with the pairs that were listed before. It takes no memory.
    pub fn make_room(&mut self, routes: u64)
        ensures { self.new ≡ self.old }
    {
        if self.held.len() as u64 / 2 > routes.saturating_add(SPARE) {
            self.held.clear();
        }
    }
}
