//! Laws of attestations and of the current table: the contract of each function is the law, and its body does nothing.
ghost use Rattle.attestations.specs.ComputedTable.{ComputedIsCurrent};
ghost use Rattle.attestations.specs.CurrentTable.{PartsHaveOneTable};
ghost use Rattle.attestations.specs.Terms.{EachRowNeverEnds};

/// All that attests, with its filters and its moment, has exactly one current table.
pub fn parts_have_one_table()
    ensures { PartsHaveOneTable }
{}

/// What a kept table's rows are computed as is the current table.
pub fn computed_is_current()
    ensures { ComputedIsCurrent }
{}

/// Each row, as an attestation, never ends.
pub fn each_row_never_ends()
    ensures { EachRowNeverEnds }
{}
