//! The customers whose row a change of a table moved.
ghost use Rattle.std.specs.Prelude.{◌≡◌, ◌++◌, [], length, slice_get, IfOk, OnOk, IsTrue, ◌↔◌};
ghost use Rattle.std.specs.Option.{option_copied};
ghost use Rattle.std.specs.Slice.Iter.{iter_rest};
ghost use Rattle.attestations.specs.Moves.{as_list, moved_to, same_rows};

use av_base::NoMemory;
use path_model::AsList;
use std::alloc::{AllocError, Global};
use std::marker::Model;
use std::slice::Iter;

/// The current row of a customer before and after a change: none, or a set of providers.
#[derive(Debug, Drop)]
pub struct RowMove {
    /// The customer.
    pub customer: u32,
    /// The row before.
    pub before: Option<AsList>,
    /// The row after.
    pub after: Option<AsList>,
}

impl Clone for RowMove {
    ghost is_clone = { λ a b. b ≡ a };

    fn clone(&self) -> Result<RowMove, AllocError> {
        Ok(RowMove {
            customer: self.customer,
            before: self.before.clone()?,
            after: self.after.clone()?,
        })
    }
}

/// A list of moves, by rising customer.
#[derive(Debug, Drop)]
pub struct Moves {
    moves: Vec<RowMove>,
}

impl Model for Moves {
    ghost use Rattle.std.specs.Prelude.{List};
    ghost use Rattle.attestations.specs.declared.moves.RowMove.{RowMove};

    ghost Value = { List RowMove };

    ghost view = { λ a. a.moves.items };
}

impl Moves {
    /// No moves, with room for so many.
    pub fn with_capacity(alloc: Global, most: usize) -> Result<Moves, NoMemory>
        ensures { IfOk result (λ moves. moves ≡ []) }
    {
        Ok(Moves {
            moves: Vec::with_capacity(alloc, most)?,
        })
    }

    /// Notes the row of a customer before and after, if it moved, as the last of the moves.
    pub fn note(
        &mut self,
        customer: u32,
        before: Option<AsList>,
        after: Option<AsList>,
    ) -> Result<(), NoMemory>
        ensures { OnOk result (self.new ≡ self.old ++ as_list (moved_to customer before after)) }
    {
        if is_same_row(before.as_ref(), after.as_ref()) {
            return Ok(());
        }
        self.moves.push(RowMove {
            customer,
            before,
            after,
        })?;
        Ok(())
    }

    /// The number of moves.
    pub fn len(&self) -> usize
        ensures { result ≡ length self.now }
    {
        self.moves.len()
    }

    /// Whether nothing moved.
    pub fn is_empty(&self) -> bool
        ensures { IsTrue result ↔ (self.now ≡ []) }
    {
        self.moves.is_empty()
    }

    /// The move at a place from 0, or `None` past the end.
    pub fn get(&self, i: usize) -> Option<&RowMove>
        ensures { option_copied result ≡ slice_get self.now i }
    {
        self.moves.get(i)
    }

    /// All moves in order.
    pub fn as_slice(&self) -> &[RowMove]
        ensures { result.now ≡ self.now }
    {
        self.moves.as_slice()
    }

    /// The moves one after another.
    pub fn iter(&self) -> Iter<'_, RowMove>
        ensures { iter_rest result ≡ self.now }
    {
        self.moves.iter()
    }

    /// The same moves once more.
    pub fn copy(&self) -> Result<Moves, NoMemory>
        ensures { IfOk result (λ moves. moves ≡ self.now) }
    {
        Ok(Moves {
            moves: self.moves.clone()?,
        })
    }
}

/// Whether two rows are the same, or neither is there.
pub fn is_same_row(one: Option<&AsList>, other: Option<&AsList>) -> bool
    ensures { result ≡ same_rows (option_copied one.entry) (option_copied other.entry) }
{
    match (one, other) {
        (None, None) => true,
        (Some(one), Some(other)) => one.as_slice() == other.as_slice(),
        (None, Some(_)) => false,
        (Some(_), None) => false,
    }
}
