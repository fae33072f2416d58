//! Numbers looked up in rows.
ghost use Rattle.std.specs.Prelude.{◌≡◌, [], IsTrue};
ghost use Rattle.std.specs.List.Sorted.{IsStrictlySortedBy};
ghost use Rattle.std.specs.Option.{option_copied};
ghost use Rattle.std.specs.Ordering.{nat_cmp};
ghost use Rattle.path_model.specs.Authority.{has};
ghost use Rattle.vap_table.specs.Counting.{holds, missing};
ghost use Rattle.vap_table.specs.Sources.{IsSetIfGiven};

use path_model::AsList;

/// Whether a rising list has a provider.
pub(crate) fn holds(row: &[u32], provider: u32) -> bool
    requires { IsStrictlySortedBy nat_cmp row.now }
    ensures { result ≡ has row.now provider }
{
    row.binary_search(&provider).is_ok()
}

/// Whether the row, if there is one, holds a number.
pub(crate) fn is_held(row: Option<&AsList>, number: u32) -> bool
    requires { IsSetIfGiven (option_copied row) }
    ensures { result ≡ holds (option_copied row.entry) number }
{
    match row {
        None => false,
        Some(row) => holds(row.as_slice(), number),
    }
}

/// Whether the row, if there is one, holds all of these.
pub(crate) fn are_held(row: Option<&AsList>, list: &[u32]) -> bool
    requires { IsSetIfGiven (option_copied row) }
    ensures { IsTrue result → missing (option_copied row.entry) list.now ≡ [] }
{
    for number in list {
        if !is_held(row, *number) {
            return false;
        }
    }
    true
}
