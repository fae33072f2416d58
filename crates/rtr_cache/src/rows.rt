//! Rows and patches, one customer at a time.
ghost use Rattle.std.specs.Prelude.{◌≡◌, ◌↔◌, ℕ, Some, None, nat_eq, is_some, if◌then◌else◌, OnOk, IsTrue};
ghost use Rattle.std.specs.Option.{option_copied};
ghost use Rattle.std.specs.FinMap as map;
ghost use Rattle.std.specs.List.Sorted.{IsStrictlyIncreasing};
ghost use Rattle.attestations.specs.Moves.{same_rows};
ghost use Rattle.vap_table.specs.Sources.{IsSetIfGiven};

use av_base::NoMemory;
use path_model::{AsList, Patch, Rows};

/// Notes the row of a customer, unless the other one is the same.
pub(crate) fn note_if_differs(
    back: &mut Patch,
    customer: u32,
    row: &AsList,
    other: Option<&AsList>,
) -> Result<(), NoMemory>
    requires { IsStrictlyIncreasing row.now }
    ensures { OnOk result ((q : ℕ) → map.get back.new q ≡ (if nat_eq customer q
        then (if same_rows (Some row.now) (option_copied other.entry)
        then map.get back.old customer else Some (Some row.now))
        else map.get back.old q)) }
{
    if is_same(Some(row), other) {
        return Ok(());
    }
    set_row(back, customer, row)
}

/// Notes that a customer had no row, unless it has one.
pub(crate) fn note_if_none(
    back: &mut Patch,
    customer: u32,
    row: Option<&AsList>,
) -> Result<(), NoMemory>
    ensures { OnOk result ((q : ℕ) → map.get back.new q ≡ (if nat_eq customer q
        then (if is_some (option_copied row.entry) then map.get back.old customer else Some None)
        else map.get back.old q)) }
{
    if row.is_some() {
        return Ok(());
    }
    set_none(back, customer)
}

/// A patch says that a customer has a row.
pub(crate) fn set_row(patch: &mut Patch, customer: u32, row: &AsList) -> Result<(), NoMemory>
    requires { IsStrictlyIncreasing row.now }
    ensures { OnOk result ((q : ℕ) → map.get patch.new q
        ≡ (if nat_eq customer q then Some (Some row.now) else map.get patch.old q)) }
{
    patch.set(customer, Some(row.copy()?))?;
    Ok(())
}

/// A patch says that a customer has no row.
pub(crate) fn set_none(patch: &mut Patch, customer: u32) -> Result<(), NoMemory>
    ensures { OnOk result ((q : ℕ) → map.get patch.new q
        ≡ (if nat_eq customer q then Some None else map.get patch.old q)) }
{
    patch.set(customer, None)?;
    Ok(())
}

/// A customer has this row from now on, or none.
pub(crate) fn give(rows: &mut Rows, customer: u32, row: Option<&AsList>) -> Result<(), NoMemory>
    requires { IsSetIfGiven (option_copied row) }
    ensures { OnOk result ((q : ℕ) → map.get rows.new q
        ≡ (if nat_eq customer q then option_copied row.entry else map.get rows.old q)) }
{
    match row {
        Some(row) => {
            rows.set(customer, row.copy()?)?;
        }
        None => {
            rows.remove(customer);
        }
    }
    Ok(())
}

/// Whether a patch names nobody.
pub(crate) fn is_none(patch: &Patch) -> bool
    ensures { IsTrue result ↔ (patch.now ≡ map.empty) }
{
    match patch.entries().next() {
        None => true,
        Some(_) => false,
    }
}

/// Whether both are the same row, or neither is there.
pub(crate) fn is_same(one: Option<&AsList>, other: Option<&AsList>) -> bool
    ensures { result ≡ same_rows (option_copied one.entry) (option_copied other.entry) }
{
    match (one, other) {
        (None, None) => true,
        (Some(one), Some(other)) => one.as_slice() == other.as_slice(),
        (None, Some(_)) => false,
        (Some(_), None) => false,
    }
}
