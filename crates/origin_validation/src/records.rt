//! The payloads of each source, and those and the filters of a SLURM file.
ghost use Rattle.std.specs.Prelude.{◌≡◌, IfOk, OnErr, OnOk};
ghost use Rattle.std.specs.Option.{option_copied};
ghost use Rattle.origin_model.specs.Current.{IsCurrent, no_parts};
ghost use Rattle.origin_model.specs.OriginState.{HasState};
ghost use Rattle.origin_validation.specs.Records.{IsGivenUnhit, PatchesSource, or_none, source_of, with_source};

use crate::changes::apply;
use crate::covering::state_in;
use av_base::NoMemory;
use origin_model::{OriginState, PrefixFilters, VrpChanges, VrpSet};
use path_model::{Name, Prefix};
use std::alloc::Global;
use std::collections::BTreeMap;
use std::marker::Model;
use std::mem;

/// What says which payloads are current: those of each named source, and the filters and the asserted payloads of a SLURM file (RFC 8416,
/// section 3).
#[derive(Drop)]
pub struct Records {
    alloc: Global,
    // in the order of their names, so that no choice of names makes a look-up long
    sources: BTreeMap<Name, VrpSet>,
    filters: PrefixFilters,
    assertions: VrpSet,
}

impl Model for Records {
    ghost use Rattle.origin_model.specs.Current.{Parts};

    ghost Value = { Parts };

    ghost view = { λ r. record { sources = r.sources.entries; filters = r.filters; assertions = r.assertions } };
}

impl Records {
    /// No source, no filter and no assertion. It takes no memory.
    pub fn new(alloc: Global) -> Records
        ensures { result ≡ no_parts }
    {
        Records {
            alloc,
            sources: BTreeMap::new(alloc),
            filters: PrefixFilters::new(alloc),
            assertions: VrpSet::new(alloc),
        }
    }

    /// The state of a route by its prefix and its origin, which is `None` where its path has an AS_SET or no AS. It takes no memory. In
    /// each source, and among the assertions, it goes from the prefix to the next shorter one that covers it and may be a payload's, with
    /// three look-ups for each, at most one more than the prefix has bits. Up to 128 payloads of one prefix are gone through; among more the
    /// one that matches is looked for, once for each maximum length, and then the first that no filter hits. Each payload of a source takes
    /// the look-ups of [`PrefixFilters::hit`]. It ends where one makes the route valid; a set without payloads costs nothing.
    pub fn state(&self, prefix: &Prefix, origin: Option<u32>) -> OriginState
        ensures { HasState (IsCurrent self.now) prefix.now origin result }
    {
        let given = self.given_state(prefix, origin);
        let none = PrefixFilters::new(self.alloc);
        let asserted = state_in(&self.assertions, &none, prefix, origin);
        given.or(asserted)
    }

    // The state by those of the sources.
    fn given_state(&self, prefix: &Prefix, origin: Option<u32>) -> OriginState
        ensures { HasState (IsGivenUnhit self.now.sources self.now.filters)
            prefix.now origin result }
    {
        let mut state = OriginState::NotFound;
        for (_, set) in &self.sources {
            let more = state_in(set, &self.filters, prefix, origin);
            state = state.or(more);
            if let OriginState::Valid = state {
                return state;
            }
        }
        state
    }

    /// The payloads of a source, if there is one of this name.
    pub fn source(&self, name: &Name) -> Option<&VrpSet>
        ensures { option_copied result ≡ source_of self.now.sources name.now }
    {
        self.sources.get(name)
    }

    /// The filters.
    pub fn filters(&self) -> &PrefixFilters
        ensures { result.now ≡ self.now.filters }
    {
        &self.filters
    }

    /// The asserted payloads.
    pub fn assertions(&self) -> &VrpSet
        ensures { result.now ≡ self.now.assertions }
    {
        &self.assertions
    }

    /// Gives the source of this name these payloads, and takes out those that it had, if there was one.
    pub fn put(&mut self, name: Name, set: VrpSet) -> Result<Option<VrpSet>, NoMemory>
        ensures held { IfOk result (λ held. held ≡ source_of self.old.sources name) }
        ensures put { OnOk result (self.new ≡ with_source self.old name set) }
        ensures err { OnErr result (self.new ≡ self.old) }
    {
        let held = self.sources.insert(name, set)?;
        Ok(held)
    }

    /// Gives the source of this name what the changes make of the payloads that it had, or of none if there was no such source. It takes
    /// the time of a look-up for each change. Where there is no memory, nothing is said of that source's payloads.
    pub fn patch(&mut self, name: Name, changes: &VrpChanges) -> Result<(), NoMemory>
        ensures { OnOk result (PatchesSource self.old name changes.now self.new) }
    {
        let alloc = self.alloc;
        let held = self.put(name.copy()?, VrpSet::new(alloc))?;
        let mut set = or_empty(alloc, held);
        apply(&mut set, changes)?;
        self.put(name, set)?;
        Ok(())
    }

    /// Gives the SLURM file these filters and asserted payloads, and takes out those that it had.
    pub fn amend(&mut self, filters: PrefixFilters, assertions: VrpSet) -> (PrefixFilters, VrpSet)
        ensures new { self.new ≡ record self.old { filters = filters; assertions = assertions } }
        ensures filters { result.0 ≡ self.old.filters }
        ensures assertions { result.1 ≡ self.old.assertions }
    {
        let before = mem::replace(&mut self.filters, filters);
        let asserted = mem::replace(&mut self.assertions, assertions);
        (before, asserted)
    }
}

// The set, or none.
fn or_empty(alloc: Global, set: Option<VrpSet>) -> VrpSet
    ensures { result ≡ or_none set }
{
    match set {
        Some(set) => set,
        None => VrpSet::new(alloc),
    }
}
