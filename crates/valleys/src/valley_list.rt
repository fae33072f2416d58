//! Lists of distinct valleys.
ghost use Rattle.std.specs.Prelude.{◌≡◌, ◌↔◌};
ghost use Rattle.std.specs.Slice.Iter.{iter_rest};
ghost use Rattle.std.specs.List.{Contains};
ghost use Rattle.std.specs.List.Sorted.{IsStrictlySortedBy};
ghost use Rattle.valleys.specs.declared.valley.Valley.{Valley as AnyValley};
ghost use Rattle.valleys.specs.Order.{valley_cmp};

use crate::Valley;
use std::marker::Model;
use std::slice::Iter;

/// Distinct valleys in ascending order; a contract sees the list of these. A valley takes 20 bytes, and none takes no memory.
#[derive(Debug, Drop)]
pub struct ValleyList {
    items: Vec<Valley>,
}

impl Model for ValleyList {
    ghost use Rattle.std.specs.Prelude.{List};
    ghost use Rattle.std.specs.List.Sorted.{IsStrictlySortedBy};
    ghost use Rattle.valleys.specs.declared.valley.Valley.{Valley as AnyValley};
    ghost use Rattle.valleys.specs.Order.{valley_cmp};

    ghost Value = { List AnyValley };

    ghost view = { λ l. l.items.items };

    ghost invariant = { λ l. IsStrictlySortedBy valley_cmp l.items.items };
}

impl ValleyList {
    // The distinct ones of these valleys. It takes no memory.
    pub(crate) fn of(items: Vec<Valley>) -> ValleyList
        ensures ascending { IsStrictlySortedBy valley_cmp result }
        ensures same { (valley : AnyValley)
            → Contains result valley ↔ Contains items.items valley }
    {
        let mut items = items;
        items.sort_unstable();
        items.dedup();
        ValleyList { items }
    }

    /// All of them.
    pub fn as_slice(&self) -> &[Valley]
        ensures value { result.now ≡ self.now }
        ensures ascending { IsStrictlySortedBy valley_cmp result.now }
    {
        self.items.as_slice()
    }

    /// All of them, one after another.
    pub fn iter(&self) -> Iter<'_, Valley>
        ensures { iter_rest result ≡ self.now }
    {
        self.items.iter()
    }
}
