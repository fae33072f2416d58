//! The attributes that count in a list of attributes.
ghost use Rattle.std.specs.Prelude.{◌≡◌, ◌<◌, ◌≤◌, IfOk, IfSome, IfNone, OnErr, List, Some, [], ◌∷◌, ◌++◌, length, option_copied, option_to_list};
ghost use Rattle.std.specs.Option.{option_or};
ghost use Rattle.bgp_attrs.specs.Attributes.{Field, IsField};
ghost use Rattle.bgp_attrs.specs.Joined.{IsJoined};
ghost use Rattle.bgp_attrs.specs.Left.{field_of, fields_left};
ghost use Rattle.bgp_attrs.specs.Parts.{contents_in, HaveFirsts};

use crate::fault::Attributes;
use crate::pieces::{Attribute, AttributeList};
use crate::splitting::take_attribute;

const AS_PATH: u8 = 2;

const AGGREGATOR: u8 = 7;

const AS4_PATH: u8 = 17;

const AS4_AGGREGATOR: u8 = 18;

// Only-to-Customer (RFC 9234, section 5).
const OTC: u8 = 35;

// The contents of the first attributes of five types, as far as attributes were gone through. Later ones are dropped unread.
#[derive(Clone, Copy, Debug)]
pub(crate) struct Firsts<'a> {
    pub(crate) path: Option<&'a [u8]>,
    pub(crate) path4: Option<&'a [u8]>,
    pub(crate) aggregator: Option<&'a [u8]>,
    pub(crate) aggregator4: Option<&'a [u8]>,
    pub(crate) otc: Option<&'a [u8]>,
}

// The attributes of a field, and the contents of the first ones of the five types.
#[derive(Clone, Copy, Debug)]
pub(crate) struct Found<'a> {
    pub(crate) list: AttributeList<'a>,
    pub(crate) firsts: Firsts<'a>,
    ghost have: { HaveFirsts firsts (fields_left list) },
}

impl<'a> Firsts<'a> {
    // Goes through one attribute more.
    #[inline(always)]
    fn note(&mut self, attribute: Attribute<'a>)
        ensures { (fields : List Field) → HaveFirsts self.old fields
            → HaveFirsts self.new (fields ++ field_of attribute.entry ∷ []) }
    {
        match attribute.kind {
            AS_PATH => keep(&mut self.path, attribute.content),
            AGGREGATOR => keep(&mut self.aggregator, attribute.content),
            AS4_PATH => keep(&mut self.path4, attribute.content),
            AS4_AGGREGATOR => keep(&mut self.aggregator4, attribute.content),
            OTC => keep(&mut self.otc, attribute.content),
            _ => {}
        }
    }
}

// Keeps a content, unless one was kept before.
#[inline(always)]
fn keep<'a>(first: &mut Option<&'a [u8]>, content: &'a [u8])
    ensures { option_copied first.new ≡ option_or (option_copied first.old) (Some content.now) }
{
    if first.is_none() {
        *first = Some(content);
    }
}

// The attributes that the bytes spell, with the first contents of five types, in one pass.
#[inline(always)]
pub(crate) fn attributes(bytes: &[u8]) -> Option<Found<'_>>
    ensures some { IfSome result (λ found. IsJoined IsField bytes.now (fields_left found.list)) }
    ensures none { IfNone result ((list : List Field) → IsJoined IsField bytes.now list → ⊥) }
{
    let mut firsts = Firsts {
        path: None,
        path4: None,
        aggregator: None,
        aggregator4: None,
        otc: None,
    };
    let mut rest = bytes;
    while !rest.is_empty() {
        let (attribute, more) = take_attribute(rest)?;
        firsts.note(attribute);
        rest = more;
    }
    Some(Found {
        list: AttributeList { rest: bytes },
        firsts,
    })
}

// The content of the one attribute of a type, where there aren't more.
pub(crate) fn only_content<'a>(
    fields: AttributeList<'a>,
    kind: u8,
) -> Result<Option<&'a [u8]>, Attributes>
    ensures ok { IfOk result (λ found.
        contents_in kind fields.entry ≡ option_to_list (option_copied found)) }
    ensures err { OnErr result (1 < length (contents_in kind fields.entry)) }
{
    let mut found = None;
    for field in fields {
        if field.kind == kind {
            if found.is_some() {
                return Err(Attributes);
            }
            found = Some(field.content);
        }
    }
    Ok(found)
}
