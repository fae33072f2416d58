//! Prefix filters.
ghost use Rattle.std.specs.Prelude.{◌≡◌, ◌↔◌, ◌∷◌, ◌++◌, [], None, Some, IsTrue, OnOk, OnErr, IfOk};
ghost use Rattle.std.specs.Slice.Iter.{iter_rest};
ghost use Rattle.path_model.specs.Prefix.{prefix_of};
ghost use Rattle.origin_model.specs.PrefixFilter.{AgreesInAsn, AgreesInPrefix, Hits, IsHit};
ghost use Rattle.origin_model.specs.FilterIndex.{HasWithin, has_either, has_front, has_parts};

use crate::{Vrp, covers};
use av_base::NoMemory;
use path_model::Prefix;
use std::alloc::Global;
use std::collections::BTreeSet;
use std::marker::Model;
use std::slice::Iter;

/// A prefix filter of a SLURM file (RFC 8416, section 3.3.1). It hits each payload with which all of its parts agree, so one without a part
/// hits each.
#[derive(Clone, Copy, Debug)]
pub struct PrefixFilter {
    /// The prefix that covers those of the payloads that it hits, if one is given.
    pub prefix: Option<Prefix>,
    /// The AS of the payloads that it hits, if one is given.
    pub asn: Option<u32>,
}

impl PrefixFilter {
    /// Whether it hits a payload.
    pub fn hits(&self, v: &Vrp) -> bool
        ensures { IsTrue result ↔ Hits self.now v.now }
    {
        self.agrees_in_prefix(v) && self.agrees_in_asn(v)
    }

    fn agrees_in_prefix(&self, v: &Vrp) -> bool
        ensures { IsTrue result ↔ AgreesInPrefix self.now.prefix v.now }
    {
        match &self.prefix {
            None => true,
            Some(prefix) => covers(prefix, &v.prefix()),
        }
    }

    fn agrees_in_asn(&self, v: &Vrp) -> bool
        ensures { IsTrue result ↔ AgreesInAsn self.now.asn v.now }
    {
        match self.asn {
            None => true,
            Some(asn) => asn == v.asn(),
        }
    }
}

// Up to so many filters are gone through one by one; among more it is looked up.
const FEW: usize = 32;

/// A list of prefix filters. One takes its place in the list, and another one in the tree by which it is found.
#[derive(Debug, Drop)]
pub struct PrefixFilters {
    filters: Vec<PrefixFilter>,
    // the parts of each of them
    parts: BTreeSet<(Option<Prefix>, Option<u32>)>,
}

impl Model for PrefixFilters {
    ghost use Rattle.std.specs.Prelude.{List};
    ghost use Rattle.origin_model.specs.declared.prefix_filter.PrefixFilter.{PrefixFilter as Filter};
    ghost use Rattle.origin_model.specs.FilterIndex.{IsIndex};

    ghost Value = { List Filter };

    ghost view = { λ f. f.filters.items };

    ghost invariant = { λ f. IsIndex f.filters.items f.parts.keys };
}

impl PrefixFilters {
    /// No filter. It takes no memory.
    pub fn new(alloc: Global) -> PrefixFilters
        ensures { result ≡ [] }
    {
        PrefixFilters {
            filters: Vec::new(alloc),
            parts: BTreeSet::new(alloc),
        }
    }

    /// One more filter, behind the others.
    pub fn push(&mut self, f: PrefixFilter) -> Result<(), NoMemory>
        ensures ok { OnOk result (self.new ≡ self.old ++ f ∷ []) }
        ensures err { OnErr result (self.new ≡ self.old) }
    {
        let prefix: Option<Prefix> = f.prefix;
        let asn = f.asn;
        self.filters.push(f)?;
        let noted = self.parts.insert((prefix, asn)).is_ok();
        if !noted {
            self.filters.pop();
            return Err(NoMemory);
        }
        Ok(())
    }

    /// The filters one after another.
    pub fn iter(&self) -> Iter<'_, PrefixFilter>
        ensures { iter_rest result ≡ self.now }
    {
        self.filters.iter()
    }

    /// Whether one of them hits a payload. Up to 32 are gone through; among more it takes four look-ups, and two more for each bit of the
    /// payload's prefix, however many there are.
    pub fn hit(&self, v: &Vrp) -> bool
        ensures { IsTrue result ↔ IsHit self.now v.now }
    {
        if self.filters.len() <= FEW {
            return hits_one(self.filters.as_slice(), v);
        }
        self.finds(v)
    }

    // The same by look-ups.
    fn finds(&self, v: &Vrp) -> bool
        ensures { IsTrue result ↔ IsHit self.now v.now }
    {
        self.has_either(&None, v.asn()) || self.has_within(v)
    }

    // Whether one of them has a prefix that covers the payload's, and its AS or none.
    fn has_within(&self, v: &Vrp) -> bool
        ensures { IsTrue result ↔ HasWithin self.now v.now }
    {
        let mut len = v.prefix().len() + 1;
        while len > 0 {
            len -= 1;
            let front = Prefix::new(v.prefix().addr(), len);
            if self.has_front(&front, v.asn()) {
                return true;
            }
        }
        false
    }

    // Whether there is such a prefix, and one of them has it, and this AS or none.
    fn has_front(&self, front: &Option<Prefix>, asn: u32) -> bool
        ensures { result ≡ has_front self.now front.now asn }
    {
        match front {
            None => false,
            Some(_) => self.has_either(front, asn),
        }
    }

    // Whether one of them has this prefix, or none, and this AS or none.
    fn has_either(&self, prefix: &Option<Prefix>, asn: u32) -> bool
        ensures { result ≡ has_either self.now prefix.now asn }
    {
        self.has(prefix, None) || self.has(prefix, Some(asn))
    }

    // Whether these are the parts of one of them.
    fn has(&self, prefix: &Option<Prefix>, asn: Option<u32>) -> bool
        ensures { result ≡ has_parts self.now (prefix.now, asn) }
    {
        self.parts.contains(&(*prefix, asn))
    }

    /// The same filters once more.
    pub fn copy(&self) -> Result<PrefixFilters, NoMemory>
        ensures { IfOk result (λ filters. filters ≡ self.now) }
    {
        Ok(PrefixFilters {
            filters: self.filters.clone()?,
            parts: self.parts.clone()?,
        })
    }
}

// Whether one of these hits a payload.
fn hits_one(filters: &[PrefixFilter], v: &Vrp) -> bool
    ensures { IsTrue result ↔ IsHit filters.now v.now }
{
    for f in filters {
        if f.hits(v) {
            return true;
        }
    }
    false
}
