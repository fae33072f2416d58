//! Items and trails of paths, with AS4_PATH merged in.
ghost use Rattle.std.specs.Prelude.{◌≡◌, ℕ, ◌+◌, ◌<◌, ◌≤◌, List, [], ◌∷◌, ◌++◌, map, length, IfOk, IfSome, IfNone, OnOk, option_map};
ghost use Rattle.path_model.specs.Trail.{chain_of};
ghost use Rattle.bgp_attrs.specs.declared.items.Item.TheVariants.{As};
ghost use Rattle.bgp_attrs.specs.Left.{ases_left, segments_left};
ghost use Rattle.bgp_attrs.specs.Merging.{segment_items, items_in, merged, ases_in, path_of_items, merged_with};
ghost use Rattle.bgp_attrs.specs.Parts.{AreWhole, head_of};
ghost use Rattle.bgp_attrs.specs.Segments.{numbers_4};

use crate::fixed::as_size;
use crate::items::{Item, Items};
use crate::pieces::{Ases, Segments};
use av_base::NoMemory;
use path_model::{AsList, Trail};
use std::alloc::Global;

const AS_SET: u8 = 1;

const AS_SEQUENCE: u8 = 2;

/// Merges AS4_PATH into AS_PATH: the first items of the path, as many as it has more than the other one, and then the other one.
/// The result is the path alone where the other one has more items (RFC 6793, section 4.2.3). Confederation segments are dropped.
pub fn merge4(alloc: Global, path: &Segments<'_>, as4: &Segments<'_>) -> Result<Items, NoMemory>
    ensures { IfOk result (λ items.
        items ≡ merged (items_in (segments_left path.now)) (items_in (segments_left as4.now))) }
{
    let mut items = gather(alloc, *path)?;
    let others = gather(alloc, *as4)?;
    if items.len() < others.len() {
        return Ok(Items { items });
    }
    items.truncate(items.len() - others.len());
    items.extend_from_slice(&others)?;
    Ok(Items { items })
}

// The items of a path.
fn gather(alloc: Global, path: Segments<'_>) -> Result<Vec<Item>, NoMemory>
    ensures { IfOk result (λ items. items.items ≡ items_in (segments_left path.entry)) }
{
    let mut items = Vec::with_capacity(alloc, most_items(path))?;
    for segment in path {
        put_segment(&mut items, segment.0, segment.1)?;
    }
    Ok(items)
}

// At least as many as the path has items.
fn most_items(path: Segments<'_>) -> usize {
    path.rest.len() / as_size(path.wide)
}

fn put_segment(items: &mut Vec<Item>, kind: u8, ases: Ases<'_>) -> Result<(), NoMemory>
    ensures { OnOk result (items.new.items
        ≡ items.old.items ++ segment_items (kind, ases_left ases.entry)) }
{
    match kind {
        AS_SET => {
            items.push(Item::Set)?;
            Ok(())
        }
        AS_SEQUENCE => put_ases(items, ases),
        _ => Ok(()),
    }
}

fn put_ases(items: &mut Vec<Item>, ases: Ases<'_>) -> Result<(), NoMemory>
    ensures { OnOk result (items.new.items
        ≡ items.old.items ++ map As (ases_left ases.entry)) }
{
    for asn in ases {
        items.push(Item::As(asn))?;
    }
    Ok(())
}

// The trail of an AS_PATH with the AS4_PATH that is used.
#[inline(always)]
pub(crate) fn trail_along(
    alloc: Global,
    path: Segments<'_>,
    path4: Option<Segments<'_>>,
) -> Result<Trail, NoMemory>
    requires { length path.rest.now ≤ 65535 }
    ensures { IfOk result (λ trail. trail
        ≡ path_of_items (merged_with (segments_left path.entry)
        (option_map segments_left path4.entry))) }
{
    match path4 {
        Some(path4) => merged_trail(alloc, path, path4),
        None => trail_alone(alloc, path),
    }
}

// The trail of an AS_PATH with an AS4_PATH merged in.
#[tactic(auto, using(crate::proofs::MergingLemmas::merged_short))]
#[inline(never)]
fn merged_trail(alloc: Global, path: Segments<'_>, path4: Segments<'_>) -> Result<Trail, NoMemory>
    requires { length path.rest.now ≤ 65535 }
    ensures { IfOk result (λ trail. trail
        ≡ path_of_items (merged (items_in (segments_left path.entry))
        (items_in (segments_left path4.entry)))) }
{
    let items = merge4(alloc, &path, &path4)?;
    trail_of_items(alloc, &items)
}

// The trail of an AS_PATH alone.
#[tactic(auto, using(crate::proofs::MergingLemmas::plain_short, crate::proofs::SequenceLemmas::sequence_short))]
#[inline(always)]
fn trail_alone(alloc: Global, path: Segments<'_>) -> Result<Trail, NoMemory>
    requires { length path.rest.now ≤ 65535 }
    ensures { IfOk result (λ trail. trail
        ≡ path_of_items (items_in (segments_left path.entry))) }
{
    match lone_sequence(path) {
        Some(ases) => sequence_trail(alloc, ases),
        None => plain_trail(alloc, path),
    }
}

// The ASes of a path that is one AS_SEQUENCE of ASes of four bytes and nothing else, as most are.
#[inline(always)]
fn lone_sequence<'a>(path: Segments<'a>) -> Option<&'a [u8]>
    ensures same { IfSome result (λ ases.
        items_in (segments_left path.entry) ≡ map As (numbers_4 ases.now)) }
    ensures whole { IfSome result (λ ases. AreWhole ases.now) }
{
    if !path.wide {
        return None;
    }
    match path.rest {
        [AS_SEQUENCE, count, rest @ ..] => {
            if rest.len() == 4 * usize::from(*count) {
                Some(rest)
            } else {
                None
            }
        }
        _ => None,
    }
}

// The trail of one AS_SEQUENCE: its ASes from the last one on, each once where it is repeated.
#[inline(always)]
fn sequence_trail(alloc: Global, ases: &[u8]) -> Result<Trail, NoMemory>
    requires whole { AreWhole ases.now }
    requires short { length (numbers_4 ases.now) ≤ 65535 }
    ensures { IfOk result (λ trail. trail ≡ path_of_items (map As (numbers_4 ases.now))) }
{
    let mut chain = AsList::new(alloc);
    let mut last = None;
    let mut rest = ases;
    while let Some((asn, front)) = take_last(rest) {
        put_behind(&mut chain, last, asn)?;
        last = Some(asn);
        rest = front;
    }
    Ok(Trail::from_chain(false, chain))
}

// Appends an AS to the chain of those written behind it, unless the last one is the same.
#[inline(always)]
fn put_behind(chain: &mut AsList, last: Option<u32>, asn: u32) -> Result<(), NoMemory>
    ensures { OnOk result ((behind : List ℕ) → last ≡ head_of behind → chain.old ≡ chain_of behind
        → chain.new ≡ chain_of (asn ∷ behind)) }
{
    match last {
        Some(before) => {
            if before == asn {
                Ok(())
            } else {
                chain.push(asn)
            }
        }
        None => chain.push(asn),
    }
}

// The last of some ASes of four bytes, and the bytes before it.
#[inline(always)]
fn take_last(bytes: &[u8]) -> Option<(u32, &[u8])>
    ensures shorter { IfSome result (λ x. length bytes.now ≡ length x.1.now + 4) }
    ensures last { IfSome result (λ x. AreWhole x.1.now
        → numbers_4 bytes.now ≡ numbers_4 x.1.now ++ x.0 ∷ []) }
    ensures none { IfNone result (length bytes.now < 4) }
{
    if bytes.len() < 4 {
        return None;
    }
    let (front, last) = bytes.split_at(bytes.len() - 4);
    match last {
        [a, b, c, d] => Some((u32::from_be_bytes([*a, *b, *c, *d]), front)),
        _ => None,
    }
}

// The trail of an AS_PATH alone, gathered into the one list that it keeps.
#[inline(never)]
fn plain_trail(alloc: Global, path: Segments<'_>) -> Result<Trail, NoMemory>
    requires { length (ases_in (items_in (segments_left path))) ≤ 65535 }
    ensures { IfOk result (λ trail. trail
        ≡ path_of_items (items_in (segments_left path.entry))) }
{
    let mut numbers = Vec::with_capacity(alloc, most_items(path))?;
    let mut set = false;
    for segment in path {
        put_numbers(&mut numbers, segment.0, segment.1)?;
        set = set | (segment.0 == AS_SET);
    }
    Ok(Trail::from_newest_first(set, numbers))
}

// The ASes of a segment that are items.
#[tactic(auto, using(crate::proofs::MergingLemmas::ases_in_sequence, crate::proofs::MergingLemmas::ases_in_other))]
fn put_numbers(numbers: &mut Vec<u32>, kind: u8, ases: Ases<'_>) -> Result<(), NoMemory>
    ensures { OnOk result (numbers.new.items
        ≡ numbers.old.items ++ ases_in (segment_items (kind, ases_left ases.entry))) }
{
    if kind != AS_SEQUENCE {
        return Ok(());
    }
    put_sequence(numbers, ases)
}

fn put_sequence(numbers: &mut Vec<u32>, ases: Ases<'_>) -> Result<(), NoMemory>
    ensures { OnOk result (numbers.new.items ≡ numbers.old.items ++ ases_left ases.entry) }
{
    for asn in ases {
        numbers.push(asn)?;
    }
    Ok(())
}

fn trail_of_items(alloc: Global, items: &Items) -> Result<Trail, NoMemory>
    requires { length (ases_in items.now) ≤ 65535 }
    ensures { IfOk result (λ trail. trail ≡ path_of_items items.now) }
{
    let mut numbers = Vec::with_capacity(alloc, items.items.len())?;
    let mut set = false;
    for item in &items.items {
        match item {
            Item::As(asn) => numbers.push(*asn)?,
            Item::Set => set = true,
        }
    }
    Ok(Trail::from_newest_first(set, numbers))
}
