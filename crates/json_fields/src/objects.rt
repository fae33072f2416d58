//! Objects that each stand for something, as elements of an array.
ghost use Rattle.std.specs.Prelude.{◌≡◌};
ghost use Rattle.serde_json.specs.Data.{Data};
ghost use Rattle.json_fields.specs.Tokens.{Holds};

use crate::fault::Read;
use crate::fields::{Fields, read_object};
use crate::lists::Element;
use json::Reader;
use std::alloc::Global;
use std::marker::PhantomData;

/// What an object of which this is kept may stand for.
pub trait Entry<K: Fields>: Drop {
    ghost Seen: { Type 0 };

    // How definitions see what an object stands for.
    ghost see: { Self → Seen };

    ghost stands_for: { Data → Seen → Type 0 };

    /// What the object stands for, if for anything.
    fn of(kept: K) -> Option<Self>
        ensures { (d : Data) → K.keeps kept d → Holds see result (stands_for d) };
}

/// The elements of an array of such objects.
pub struct Objects<K, E>(PhantomData<K>, PhantomData<E>);

impl<K: Fields, E: Entry<K>> Element for Objects<K, E> {
    type Item = E;

    ghost Seen = { E.Seen };

    ghost see = { E.see };

    ghost stands_for = { E.stands_for };

    fn read(alloc: Global, reader: &mut Reader<'_>, depth: usize) -> Read<Option<E>> {
        let kept: K = read_object(alloc, reader, depth)?;
        Ok(E::of(kept))
    }
}
