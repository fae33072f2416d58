//! The law of the test of prefixes: the contract of the function is the law, and its body does nothing.
ghost use Rattle.conditions.specs.Laws.{PrefixesAreTestedByCovering};

/// `within` and `covering` go by which prefix covers which, as validation of a route's origin does (RFC 6811, section 2).
pub fn prefixes_are_tested_by_covering()
    ensures { PrefixesAreTestedByCovering }
{}
