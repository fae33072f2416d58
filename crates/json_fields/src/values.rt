//! Values that each stand for something by themselves, as elements of an array and as members of an object.
ghost use Rattle.std.specs.Prelude.{◌≡◌, Some, option_map};
ghost use Rattle.serde_json.specs.Data.{Data, Members, Num, object, put};
ghost use Rattle.serde_json.specs.Find.{get};
ghost use Rattle.serde_json.specs.View.{number_view};
ghost use Rattle.json_fields.specs.Object.{IsNumber};
ghost use Rattle.json_fields.specs.Tokens.{Holds, Keeps, KindIs};

use crate::fault::Read;
use crate::kind::Kind;
use crate::lists::Element;
use crate::passing::pass;
use json::Reader;
use serde_json::Number;
use std::alloc::Global;
use std::marker::PhantomData;

/// Values of one kind.
pub trait Value {
    /// What a value stands for.
    type Item: Drop;

    ghost Seen: { Type 0 };

    // How definitions see what a value stands for.
    ghost see: { Self.Item → Seen };

    ghost stands_for: { Data → Seen → Type 0 };

    /// What the value stands for, if for anything.
    fn of(kind: Kind<'_>) -> Option<Self::Item>
        ensures { (d : Data) → KindIs kind.entry d → Holds see result (stands_for d) };
}

impl Value for Number {
    type Item = Number;

    ghost Seen = { Num };

    ghost see = { number_view };

    ghost stands_for = { IsNumber };

    fn of(kind: Kind<'_>) -> Option<Number> {
        kind.number()
    }
}

/// The elements of an array of such values.
pub struct Values<V>(PhantomData<V>);

impl<V: Value> Element for Values<V> {
    type Item = V::Item;

    ghost Seen = { V.Seen };

    ghost see = { V.see };

    ghost stands_for = { V.stands_for };

    fn read(_alloc: Global, reader: &mut Reader<'_>, depth: usize) -> Read<Option<V::Item>> {
        let kind = pass(reader, depth)?;
        Ok(V::of(kind))
    }
}

/// What the member of the wanted name stands for, if it is there, after one more member: none where it stands for nothing.
pub fn value_after<V: Value>(
    before: Option<Option<V::Item>>,
    wanted: &str,
    name: &str,
    kind: Kind<'_>,
) -> Option<Option<V::Item>>
    ensures { (d : Data) (ms : Members) → KindIs kind.entry d
        → Keeps V.see V.stands_for before (get wanted.now (object ms))
        → Keeps V.see V.stands_for result (get wanted.now (object (put name.now d ms))) }
{
    if name == wanted {
        there(V::of(kind))
    } else {
        before
    }
}

// A member that is there.
pub(crate) fn there<T>(found: Option<T>) -> Option<Option<T>>
    ensures { result ≡ option_map Some found }
{
    match found {
        Some(item) => Some(Some(item)),
        None => None,
    }
}
