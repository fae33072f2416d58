//! Where a case is looked for first: hints, which are got ahead of their use, and cases that are read ahead of it.
ghost use Rattle.std.specs.Prelude.{IfSome};
ghost use Rattle.shared_cases.specs.Cases.{at, IsStoredAs};

use crate::case_name::mixed;
use crate::{SharedCases, slots};
use hop_index::HopsAhead;
use path_model::Trail;

impl SharedCases {
    /// A hint for [`SharedCases::take`]: the number under which the case of this AS and path is likely to stand. Nothing is promised of it.
    /// It reads no case, so that where many hints are got one after another, memory is waited for once and not for each.
    #[inline(always)]
    pub fn hint(&self, asn: u32, trail: &Trail) -> Option<u32> {
        self.kept.names.hint(mixed(asn, trail))
    }

    /// The same hint, where it is found with one look, as most are: got for many cases before [`SharedCases::hint`] is asked for the others,
    /// it lets the looks wait for memory together.
    #[inline(always)]
    pub fn near(&self, asn: u32, trail: &Trail) -> Option<u32> {
        self.kept.names.near(mixed(asn, trail))
    }

    /// The same hint, if a case stands there. It reads the case at both ends, so that it is at hand for who takes it.
    #[inline(always)]
    pub fn fetched(&self, hint: Option<u32>) -> Option<u32> {
        let number = hint?;
        let case = self.slab.get(number as usize)?;
        if (case.users > 0) | (case.asn > 0) {
            Some(number)
        } else {
            None
        }
    }

    /// Looks up the hops of a path that no case may have yet, ahead of the case's coming. Nothing is promised of them.
    #[inline(always)]
    pub fn look_up_hops(&self, trail: &Trail, hops: &mut HopsAhead) {
        hops.look_up(&self.kept.index, trail.chain());
    }

    /// Reads hops that were looked up. The number says nothing.
    #[inline(always)]
    pub fn read_hops(&self, hops: &HopsAhead) -> usize {
        hops.read(&self.kept.index)
    }

    /// The hint, if it is the number of the case of this AS and path.
    #[inline(always)]
    pub fn hinted(&self, hint: Option<u32>, asn: u32, trail: &Trail) -> Option<u32>
        ensures { IfSome result (λ n. IsStoredAs (at self.now n) asn trail.now) }
    {
        let number = hint?;
        if slots::is_stored_as(&self.slab, number as usize, asn, trail) {
            Some(number)
        } else {
            None
        }
    }
}
