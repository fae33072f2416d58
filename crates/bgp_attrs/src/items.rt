//! The items of a path.
ghost use Rattle.std.specs.Prelude.{◌≡◌, IfOk, slice_get, length, IsTrue, ◌↔◌, []};
ghost use Rattle.std.specs.Option.{option_copied};

use av_base::NoMemory;
use std::marker::Model;

/// An item of a path: what counts as one when the lengths of paths are compared.
#[derive(Clone, Copy, Debug, PartialEq, Eq)]
pub enum Item {
    /// An AS of an AS_SEQUENCE.
    As(u32),
    /// An AS_SET, whatever ASes it has.
    Set,
}

/// The items of a path, most recent first.
#[derive(Debug, Drop)]
pub struct Items {
    pub(crate) items: Vec<Item>,
}

impl Model for Items {
    ghost use Rattle.std.specs.Prelude.{List};
    ghost use Rattle.bgp_attrs.specs.declared.items.Item.{Item as AnItem};

    ghost Value = { List AnItem };

    ghost view = { λ i. i.items.items };
}

impl Items {
    /// The number of items.
    pub fn len(&self) -> usize
        ensures { result ≡ length self.now }
    {
        self.items.len()
    }

    /// Whether there are none.
    pub fn is_empty(&self) -> bool
        ensures { IsTrue result ↔ (self.now ≡ []) }
    {
        self.items.is_empty()
    }

    /// The item at a place from 0, or `None` past the end.
    pub fn get(&self, i: usize) -> Option<&Item>
        ensures { option_copied result ≡ slice_get self.now i }
    {
        self.items.get(i)
    }

    /// All items in order.
    pub fn as_slice(&self) -> &[Item]
        ensures { result.now ≡ self.now }
    {
        self.items.as_slice()
    }

    /// The same items once more.
    pub fn copy(&self) -> Result<Items, NoMemory>
        ensures { IfOk result (λ items. items ≡ self.now) }
    {
        Ok(Items {
            items: self.items.clone()?,
        })
    }
}
