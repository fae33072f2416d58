//! Arrays whose elements each stand for something. With one that doesn't the list is let go, and the rest is passed over.
ghost use Rattle.std.specs.Prelude.{◌≡◌, IfOk, IfErr, map, option_map};
ghost use Rattle.serde_json.specs.Data.{Data};
ghost use Rattle.json_fields.specs.Tokens.{AreOr, IsListOr, IsOr, Takes, TakesItems, joined};
ghost use Rattle.json_fields.specs.declared.fault.JsonFault.TheVariants.{NoMemory as OutOfMemory};

use crate::fault::{JsonFault, Read};
use crate::passing::opens_array;
use json::Reader;
use std::alloc::Global;

/// The elements of the arrays of one kind.
pub trait Element {
    /// What an element stands for.
    type Item: Drop;

    ghost Seen: { Type 0 };

    // How definitions see what an element stands for.
    ghost see: { Self.Item → Seen };

    ghost stands_for: { Data → Seen → Type 0 };

    /// Reads the next value, and answers what it stands for, if for anything.
    fn read(alloc: Global, reader: &mut Reader<'_>, depth: usize) -> Read<Option<Self::Item>>
        ensures { Takes (IsOr see stands_for) depth reader.old reader.new result };
}

/// What the elements of the next value stand for, each; none where it is no array, or one of them stands for nothing.
pub fn read_list<E: Element>(
    alloc: Global,
    reader: &mut Reader<'_>,
    depth: usize,
) -> Read<Option<Vec<E::Item>>>
    ensures { Takes (IsListOr (λ v. map E.see v.items) E.stands_for) depth reader.old reader.new result }
{
    let opens = opens_array(reader, depth)?;
    if !opens {
        return Ok(None);
    }
    read_items::<E>(alloc, reader, depth - 1)
}

// Those after the opening bracket.
fn read_items<E: Element>(
    alloc: Global,
    reader: &mut Reader<'_>,
    depth: usize,
) -> Read<Option<Vec<E::Item>>>
    ensures { TakesItems (AreOr (λ v. map E.see v.items) E.stands_for) depth reader.old reader.new result }
{
    let mut list = Some(Vec::new(alloc));
    'items: while !reader.take_end_array() {
        let item = E::read(alloc, reader, depth)?;
        let more = with(list, item)?;
        list = more;
    }
    Ok(list)
}

// The list with one more item, where there are both.
fn with<T: Drop>(list: Option<Vec<T>>, item: Option<T>) -> Read<Option<Vec<T>>>
    ensures ok { IfOk result
        (λ r. option_map (λ v. v.items) r ≡ joined (option_map (λ v. v.items) list) item) }
    ensures err { IfErr result (λ e. e ≡ OutOfMemory) }
{
    let Some(mut list) = list else {
        return Ok(None);
    };
    let Some(item) = item else {
        return Ok(None);
    };
    list.push(item)?;
    Ok(Some(list))
}
