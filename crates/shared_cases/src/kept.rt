//! What is kept of the cases beside the slab where they stand.
ghost use Rattle.std.specs.Prelude.{◌≡◌, ◌||◌, ◌&&◌, not, ℕ, nat_eq, [], IfOk, OnOk};
ghost use Rattle.hop_index.specs.Index.{Adds};
ghost use Rattle.shared_cases.specs.Kept.{FitTogether};
ghost use Rattle.shared_cases.specs.Names.{name_of};
ghost use Rattle.shared_cases.specs.Naming.{AddsName};
ghost use Rattle.shared_cases.specs.Numbers.{has};
ghost use Rattle.shared_cases.specs.Peers.{AddsMember};
ghost use Rattle.shared_cases.specs.Verdicts.{SetsVerdict};

use crate::case_name::CaseName;
use crate::found::FoundCases;
use crate::names::Names;
use crate::peers::Peers;
use crate::totals::Totals;
use crate::verdicts::Verdicts;
use av_base::NoMemory;
use hop_index::HopIndex;
use path_model::Verdict;
use std::alloc::Global;

// By what the cases are found, how many routes have them, and which verdicts they have and had.
#[derive(Drop)]
pub(crate) struct Kept {
    pub(crate) names: Names,
    pub(crate) index: HopIndex,
    pub(crate) peers: Peers,
    // how many routes have them, by their verdicts
    pub(crate) totals: Totals,
    // the verdict of each
    pub(crate) verdicts: Verdicts,
    // those that got another verdict since the last mark; some may be gone
    pub(crate) differed: FoundCases,
}

impl Kept {
    // Of no cases. It takes no memory.
    pub(crate) fn new(alloc: Global) -> Kept
        ensures { FitTogether [] result }
    {
        Kept {
            names: Names::new(alloc),
            index: HopIndex::unlisted(alloc),
            peers: Peers::new(alloc),
            totals: Totals::none(),
            verdicts: Verdicts::new(alloc),
            differed: FoundCases::new(alloc),
        }
    }

    // The case under this number is found by its name, by its hops and by its AS from now on, and its verdict stands there. The number in
    // 32 bits is answered.
    #[inline(always)]
    pub(crate) fn add(
        &mut self,
        name: CaseName,
        number: usize,
        verdict: Verdict,
        own: bool,
    ) -> Result<u32, NoMemory>
        requires { name ≡ name_of name.asn name.trail }
        ensures short { IfOk result (λ short. short ≡ number) }
        ensures hops { OnOk result (Adds self.old.index number name.trail.chain self.new.index) }
        ensures members { OnOk result
            (AddsMember self.old.peers.members name.asn number self.new.peers.members) }
        ensures defaulted { OnOk result ((a : ℕ) → has self.new.peers.defaulted a
            ≡ (has self.old.peers.defaulted a || (nat_eq a name.asn && not own))) }
        ensures name { OnOk result
            (AddsName self.old.names name.asn name.trail number self.new.names) }
        ensures verdict { OnOk result
            (SetsVerdict self.old.verdicts self.new.verdicts number verdict) }
        ensures differed { self.new.differed ≡ self.old.differed }
    {
        let short = u32::try_from(number).ok().ok_or(NoMemory)?;
        self.index.put(number, name.trail.chain())?;
        self.peers.add(name.asn, number, own)?;
        self.names.add(name, short)?;
        self.verdicts.set(number, verdict)?;
        Ok(short)
    }
}
