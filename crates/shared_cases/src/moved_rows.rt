//! A customer's rows before and after a move, as an AS is looked up in them.
ghost use Rattle.std.specs.Prelude.{◌≡◌, not, IsTrue, IfOk, IfSome};
ghost use Rattle.std.specs.List.Sorted.{IsNonDecreasing};
ghost use Rattle.std.specs.Option.{option_copied};
ghost use Rattle.path_model.specs.Authority.{has, said_by};
ghost use Rattle.shared_cases.specs.Touching.{differs, same_authority, AreAllOf, IsRisen};

use crate::unmatched::unmatched;
use attestations::RowMove;
use av_base::NoMemory;
use path_model::{AsList, Authority};
use std::alloc::Global;
use std::marker::Model;
use std::vec::Vec;

// The rows of a move, where they stand.
#[derive(Drop)]
pub(crate) struct MovedRows<'a> {
    row_move: &'a RowMove,
    // whether each row rises, as those of a table do: it is halved then to find an AS
    before_rises: bool,
    after_rises: bool,
}

impl<'a> Model for MovedRows<'a> {
    ghost use Rattle.std.specs.Prelude.{IsTrue};
    ghost use Rattle.attestations.specs.declared.moves.RowMove.{RowMove};
    ghost use Rattle.shared_cases.specs.Touching.{IsRisen};

    ghost Value = { RowMove };

    ghost view = { λ r. r.row_move.now };

    ghost invariant = { λ r. (IsTrue r.before_rises → IsRisen r.row_move.now.before)
        × (IsTrue r.after_rises → IsRisen r.row_move.now.after) };
}

impl<'a> MovedRows<'a> {
    // The rows of a move. It takes no memory, and the time of a walk over both.
    pub(crate) fn new(row_move: &'a RowMove) -> MovedRows<'a>
        ensures { result ≡ row_move.now }
    {
        MovedRows {
            row_move,
            before_rises: is_risen(row_move.before.as_ref()),
            after_rises: is_risen(row_move.after.as_ref()),
        }
    }

    // The customer.
    pub(crate) fn customer(&self) -> u32
        ensures { result ≡ self.now.customer }
    {
        self.row_move.customer
    }

    // All ASes of which the customer attests another thing than before, where it has a row and had one; where both rise, no others. It takes
    // the time of a walk over both rows.
    pub(crate) fn unmatched(&self, alloc: Global) -> Result<Option<Vec<u32>>, NoMemory>
        ensures { IfOk result (λ r. IfSome r (λ asked. AreAllOf asked.items self.now)) }
    {
        match (&self.row_move.before, &self.row_move.after) {
            (Some(before), Some(after)) => {
                let asked = unmatched(alloc, before.as_slice(), after.as_slice())?;
                Ok(Some(asked))
            }
            _ => Ok(None),
        }
    }

    // Whether the customer attests another thing of an AS than before.
    pub(crate) fn is_moved(&self, provider: u32) -> bool
        ensures { result ≡ differs self.now provider }
    {
        let before = said_by(self.row_move.before.as_ref(), self.before_rises, provider);
        let after = said_by(self.row_move.after.as_ref(), self.after_rises, provider);
        is_other(before, after)
    }
}

// Whether the row rises, if there is one.
fn is_risen(row: Option<&AsList>) -> bool
    ensures { IsTrue result → IsRisen (option_copied row.entry) }
{
    match row {
        None => true,
        Some(row) => row.as_slice().is_sorted(),
    }
}

// What the row, if there is one, says of an AS.
fn said_by(row: Option<&AsList>, rises: bool, asn: u32) -> Authority
    requires { IsTrue rises → IsRisen (option_copied row) }
    ensures { result ≡ said_by (option_copied row.entry) asn }
{
    match row {
        None => Authority::Silent,
        Some(row) => {
            if has(row.as_slice(), rises, asn) {
                Authority::Provides
            } else {
                Authority::Refuses
            }
        }
    }
}

// Whether a list has an AS.
fn has(list: &[u32], rises: bool, asn: u32) -> bool
    requires { IsTrue rises → IsNonDecreasing list.now }
    ensures { result ≡ has list.now asn }
{
    if rises {
        list.binary_search(&asn).is_ok()
    } else {
        list.contains(&asn)
    }
}

// Whether two answers differ.
fn is_other(one: Authority, other: Authority) -> bool
    ensures { result ≡ not (same_authority one other) }
{
    one != other
}
