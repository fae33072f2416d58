//! Laws of the workload and of its text: the contract of each function is the law, and its body does nothing.
ghost use Rattle.stated_workload.specs.Laws.{EachSeedHasOneText, EachSeedHasOneWorkload};

/// Each seed has exactly one workload.
pub fn each_seed_has_one_workload()
    ensures { EachSeedHasOneWorkload }
{}

/// Each seed has exactly one text.
pub fn each_seed_has_one_text()
    ensures { EachSeedHasOneText }
{}
