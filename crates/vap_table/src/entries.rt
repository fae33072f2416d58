//! The current rows, one after another.
ghost use Rattle.std.specs.Prelude.{List, ℕ};
ghost use Rattle.std.specs.Borrow.{Bor};
ghost use Rattle.std.specs.Iterator.{YieldsFirstBy, item_count};
ghost use Rattle.vap_table.specs.Entries.{entries_left};

use crate::current::Current;
use crate::parts::HeldParts;
use path_model::AsList;
use std::collections::btree_set;

/// The pairs of a customer and its current row, by rising customer. It takes no memory, and each pair costs two ordered look-ups at most.
#[derive(Drop)]
pub struct Entries<'a> {
    // the customers that are left
    pub(crate) customers: btree_set::Iter<'a, u32>,
    pub(crate) current: &'a Current,
    pub(crate) parts: &'a HeldParts,
}

impl<'a> Iterator for Entries<'a> {
    type Item = (u32, &'a AsList);

    ghost next_gives = { YieldsFirstBy (λ (i : ℕ × Bor (List ℕ)). (i.0, i.1.now)) entries_left };

    ghost remaining = { item_count entries_left };

    fn next(&mut self) -> Option<(u32, &'a AsList)> {
        loop {
            match self.customers.next() {
                None => return None,
                Some(customer) => {
                    if let Some(row) = self.current.row(self.parts, *customer) {
                        return Some((*customer, row));
                    }
                }
            }
        }
    }
}
