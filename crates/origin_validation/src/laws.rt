//! Laws of the rows and of changes: the contract of each function is the law, and its body does nothing.
ghost use Rattle.origin_validation.specs.Laws.{EachPatchHasOneResult, RoutesHaveOneListOfStates};

/// Routes have exactly one list of rows with their states, whatever is current.
pub fn routes_have_one_list_of_states()
    ensures { RoutesHaveOneListOfStates }
{}

/// Changes of a source's payloads have exactly one result, whatever it had.
pub fn each_patch_has_one_result()
    ensures { EachPatchHasOneResult }
{}
