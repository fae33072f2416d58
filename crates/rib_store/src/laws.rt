//! Laws of the store: the contract of each function is the law, and its body does nothing.
ghost use Rattle.rib_store.specs.Laws.{EachChangeTouchesOneNumber, EachStateHasOneListOfChanges, EachStateHasOneMarking, EachStateHasOneReport};

/// Each state has exactly one list of rows.
pub fn each_state_has_one_report()
    ensures { EachStateHasOneReport }
{}

/// Each state has exactly one list of changes.
pub fn each_state_has_one_list_of_changes()
    ensures { EachStateHasOneListOfChanges }
{}

/// From each state exactly one state comes by marking.
pub fn each_state_has_one_marking()
    ensures { EachStateHasOneMarking }
{}

/// Each change of a state touches exactly one number of distinct pairs of a peer AS and a path.
pub fn each_change_touches_one_number()
    ensures { EachChangeTouchesOneNumber }
{}
