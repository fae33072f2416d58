//! What is kept of an object: its members are read in order, and of those of one name the last counts.
ghost use Rattle.std.specs.Prelude.{◌≡◌, true, false, None, Some, IfOk, IfErr, is_some, map, option_map};
ghost use Rattle.serde_json.specs.Data.{Data, Members, object, no_members, put};
ghost use Rattle.serde_json.specs.Find.{as_object};
ghost use Rattle.serde_json.specs.View.{number_view};
ghost use Rattle.json_fields.specs.Object.{number_at, number_if_there, text_if_there, array_at, has_only, may_have_text};
ghost use Rattle.json_fields.specs.Tokens.{KindIs, Takes, TakesObject, kind_text, numbers_kept, texts_kept};

use crate::fault::{JsonFault, Read};
use crate::kind::Kind;
use crate::names::is_among;
use crate::passing::opens_object;
use crate::values::there;
use json::Reader;
use serde_json::Number;
use std::alloc::Global;

/// What is kept of the objects of one kind.
pub trait Fields: Drop {
    ghost keeps: { Self → Data → Type 0 };

    /// Of an object that has no member, or else of what is no object.
    fn new(is_object: bool) -> Self
        ensures object { is_object ≡ true → keeps result (object no_members) }
        ensures other { (d : Data) → is_object ≡ false → as_object d ≡ None → keeps result d };

    /// Reads one more member, after its name.
    fn keep(self, alloc: Global, name: &str, reader: &mut Reader, depth: usize) -> Read<Self>
        ensures { Takes
            (λ kept d. (ms : Members) → keeps self (object ms) → keeps kept (object (put name.now d ms)))
            depth reader.old reader.new result };
}

/// What is kept of the next value.
pub fn read_object<F: Fields>(alloc: Global, reader: &mut Reader<'_>, depth: usize) -> Read<F>
    ensures { Takes F.keeps depth reader.old reader.new result }
{
    let opens = opens_object(reader, depth)?;
    if !opens {
        return Ok(F::new(false));
    }
    read_members(alloc, reader, depth - 1)
}

// What is kept of an object, after its opening bracket.
fn read_members<F: Fields>(alloc: Global, reader: &mut Reader<'_>, depth: usize) -> Read<F>
    ensures { TakesObject F.keeps depth reader.old reader.new result }
{
    let mut kept = F::new(true);
    'members: while let Some(name) = reader.next_key()? {
        let more = kept.keep(alloc, name, reader, depth)?;
        kept = more;
    }
    Ok(kept)
}

/// Whether all members have these names, after one more member.
pub fn only_after(before: bool, names: &[&str], name: &str) -> bool
    ensures { (d : Data) (ms : Members)
        → before ≡ has_only (map (λ name. name.now) names.now) (object ms)
        → result ≡ has_only (map (λ name. name.now) names.now) (object (put name.now d ms)) }
{
    if before { is_among(names, name) } else { false }
}

/// The number that is the member of the wanted name, after one more member.
pub fn number_after(
    before: Option<Number>,
    wanted: &str,
    name: &str,
    kind: Kind<'_>,
) -> Option<Number>
    ensures { (d : Data) (ms : Members) → KindIs kind.entry d
        → option_map number_view before ≡ number_at wanted.now (object ms)
        → option_map number_view result ≡ number_at wanted.now (object (put name.now d ms)) }
{
    if name == wanted {
        kind.number()
    } else {
        before
    }
}

/// Whether the member of the wanted name is a text, if there is one, after one more member.
pub fn text_after(before: bool, wanted: &str, name: &str, kind: Kind<'_>) -> bool
    ensures { (d : Data) (ms : Members) → KindIs kind.entry d
        → before ≡ may_have_text wanted.now (object ms)
        → result ≡ may_have_text wanted.now (object (put name.now d ms)) }
{
    if name == wanted {
        kind.text().is_some()
    } else {
        before
    }
}

/// The number that the member of the wanted name is, if it is there, after one more member: none where it is no number.
pub fn number_if_there_after(
    before: Option<Option<Number>>,
    wanted: &str,
    name: &str,
    kind: Kind<'_>,
) -> Option<Option<Number>>
    ensures { (d : Data) (ms : Members) → KindIs kind.entry d
        → numbers_kept before ≡ number_if_there wanted.now (object ms)
        → numbers_kept result ≡ number_if_there wanted.now (object (put name.now d ms)) }
{
    if name == wanted {
        there(kind.number())
    } else {
        before
    }
}

/// The text that the member of the wanted name is, likewise.
pub fn text_if_there_after(
    alloc: Global,
    before: Option<Option<Vec<u8>>>,
    wanted: &str,
    name: &str,
    kind: Kind<'_>,
) -> Read<Option<Option<Vec<u8>>>>
    ensures ok { IfOk result (λ r. (d : Data) (ms : Members) → KindIs kind.entry d
        → texts_kept before ≡ text_if_there wanted.now (object ms)
        → texts_kept r ≡ text_if_there wanted.now (object (put name.now d ms))) }
    ensures err { IfErr result (λ e. e ≡ JsonFault.NoMemory) }
{
    if name == wanted {
        let text = kept_text(alloc, kind)?;
        Ok(text)
    } else {
        Ok(before)
    }
}

// A copy of a text's bytes, and none of another value.
fn kept_text(alloc: Global, kind: Kind<'_>) -> Read<Option<Option<Vec<u8>>>>
    ensures ok { IfOk result (λ r. texts_kept r ≡ option_map Some (kind_text kind.entry)) }
    ensures err { IfErr result (λ e. e ≡ JsonFault.NoMemory) }
{
    let Some(text) = kind.text() else {
        return Ok(None);
    };
    let mut bytes = Vec::new(alloc);
    bytes.extend_from_slice(text.as_bytes())?;
    Ok(Some(Some(bytes)))
}

/// Whether the member of the wanted name is an array, after one more member.
pub fn array_after(before: bool, wanted: &str, name: &str, kind: Kind<'_>) -> bool
    ensures { (d : Data) (ms : Members) → KindIs kind.entry d
        → before ≡ is_some (array_at wanted.now (object ms))
        → result ≡ is_some (array_at wanted.now (object (put name.now d ms))) }
{
    if name == wanted {
        kind.is_array()
    } else {
        before
    }
}
