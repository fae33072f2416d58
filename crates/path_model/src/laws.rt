//! Laws of verdicts, witnesses and ramps: the contract of each function is the law, and its body does nothing.
ghost use Rattle.path_model.specs.Laws.{EachCaseHasOneRightVerdict, FullestCompletionDecides, HopsDecide, HopsDecideWitnesses, EachCaseHasOneWitness, FactsDecide, PrintedWitnessHasFacts, RightVerdictHasWitness, RampsDecide};

/// Every case has exactly one right verdict.
pub fn each_case_has_one_right_verdict()
    ensures { EachCaseHasOneRightVerdict }
{}

/// Every case has exactly one printed witness.
pub fn each_case_has_one_witness()
    ensures { EachCaseHasOneWitness }
{}

/// If what silent ASes might attest can make a path valid at all, it does so where each of them attests every AS of the path.
pub fn fullest_completion_decides()
    ensures { FullestCompletionDecides }
{}

/// The right verdict depends on the attestations only by what they say of the path's own hops.
pub fn hops_decide()
    ensures { HopsDecide }
{}

/// The printed witness depends on the attestations only by what they say of the path's own hops, and so do the facts of every witness.
pub fn hops_decide_witnesses()
    ensures { HopsDecideWitnesses }
{}

/// A verdict is right if some witness has its facts for it.
pub fn facts_decide()
    ensures { FactsDecide }
{}

/// The printed witness has its facts for the right verdict.
pub fn printed_witness_has_facts()
    ensures { PrintedWitnessHasFacts }
{}

/// Each right verdict has a witness whose facts hold.
pub fn right_verdict_has_witness()
    ensures { RightVerdictHasWitness }
{}

/// Each chain that isn't empty has its four ramps, and their comparison with its number of ASes says of it what labellings and completions do.
pub fn ramps_decide()
    ensures { RampsDecide }
{}
