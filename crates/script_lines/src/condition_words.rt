//! The conditions of a `routes` line, each a word and its value.
ghost use Rattle.std.specs.Prelude.{◌≡◌, IfOk, IfErr, IfSome, IfNone, length};
ghost use Rattle.av_text.specs.Words.{words_left};
ghost use Rattle.script_lines.specs.Conditions.{condition_kind, condition_text, is_given, none_given, with_given, AreConditions, IsConditionName};
ghost use Rattle.script_lines.specs.Fields.{IsWith, RefusesWith, RefusesWords};
ghost use Rattle.script_lines.specs.Kinds.{Spells};
ghost use Rattle.script_lines.specs.Forms.{conditions};

use crate::fault::LineFault;
use crate::fields::{Fields, both};
use crate::kinds::{AddressWord, AsWord, Kind, PrefixWord, VerdictWord};
use av_text::Words;
use conditions::Conditions;
use std::alloc::Global;

/// What a condition is about, by its word.
#[derive(Clone, Copy)]
pub(crate) enum ConditionName {
    Verdict,
    Peer,
    From,
    Prefix,
    Within,
    Covering,
    Origin,
    Through,
}

// Which conditions have come.
#[derive(Clone, Copy)]
pub(crate) struct Given {
    verdict: bool,
    peer: bool,
    from: bool,
    prefix: bool,
    within: bool,
    covering: bool,
    origin: bool,
    through: bool,
}

impl Given {
    // None.
    fn none() -> Given
        ensures { result ≡ none_given }
    {
        Given {
            verdict: false,
            peer: false,
            from: false,
            prefix: false,
            within: false,
            covering: false,
            origin: false,
            through: false,
        }
    }

    // Whether this one has.
    fn has(self, name: ConditionName) -> bool
        ensures { result ≡ is_given name self }
    {
        match name {
            ConditionName::Verdict => self.verdict,
            ConditionName::Peer => self.peer,
            ConditionName::From => self.from,
            ConditionName::Prefix => self.prefix,
            ConditionName::Within => self.within,
            ConditionName::Covering => self.covering,
            ConditionName::Origin => self.origin,
            ConditionName::Through => self.through,
        }
    }

    // These and this one.
    fn with(self, name: ConditionName) -> Given
        ensures { result ≡ with_given name self }
    {
        let mut given = self;
        match name {
            ConditionName::Verdict => given.verdict = true,
            ConditionName::Peer => given.peer = true,
            ConditionName::From => given.from = true,
            ConditionName::Prefix => given.prefix = true,
            ConditionName::Within => given.within = true,
            ConditionName::Covering => given.covering = true,
            ConditionName::Origin => given.origin = true,
            ConditionName::Through => given.through = true,
        }
        given
    }
}

// The condition that begins with this word.
fn condition_name(word: &[u8]) -> Option<ConditionName>
    ensures spelled { IfSome result (λ name. word.now ≡ condition_text name) }
    ensures none { IfNone result (¬ IsConditionName word.now) }
{
    match word {
        b"verdict" => Some(ConditionName::Verdict),
        b"peer" => Some(ConditionName::Peer),
        b"from" => Some(ConditionName::From),
        b"prefix" => Some(ConditionName::Prefix),
        b"within" => Some(ConditionName::Within),
        b"covering" => Some(ConditionName::Covering),
        b"origin" => Some(ConditionName::Origin),
        b"through" => Some(ConditionName::Through),
        _ => None,
    }
}

/// Conditions up to the line's end, each at most once.
pub(crate) struct ConditionWords;

impl Fields for ConditionWords {
    type Values = Conditions;

    ghost form = { conditions none_given };

    ghost build = { λ asked b. b asked };

    fn read(alloc: Global, words: Words<'_>) -> Result<Conditions, LineFault> {
        read_conditions(alloc, words, Given::none())
    }
}

// Reads conditions, where some have come.
fn read_conditions(alloc: Global, words: Words<'_>, given: Given) -> Result<Conditions, LineFault>
    ensures spelled { IfOk result (AreConditions given (words_left words.entry)) }
    ensures refused { IfErr result (RefusesWords (conditions given) (words_left words.entry)) }
{
    let mut words = words;
    let Some(word) = words.next() else {
        return Ok(Conditions::none());
    };
    let Some(name) = condition_name(word) else {
        return Err(LineFault::Words);
    };
    let Some(value) = words.next() else {
        return Err(LineFault::Words);
    };
    if given.has(name) {
        return Err(LineFault::Words);
    }
    let others = read_conditions(alloc, words, given.with(name));
    with_condition(alloc, name, value, others)
}

// The conditions with this one, or the fault that comes first.
fn with_condition(
    alloc: Global,
    name: ConditionName,
    word: &[u8],
    others: Result<Conditions, LineFault>,
) -> Result<Conditions, LineFault>
    ensures spelled { IfOk result (IsWith name word.now others) }
    ensures refused { IfErr result (RefusesWith (condition_kind name) word.now others) }
{
    match name {
        ConditionName::Verdict => {
            let (verdict, others) = with_value::<VerdictWord>(alloc, word, others)?;
            Ok(Conditions {
                verdict: Some(verdict),
                ..others
            })
        }
        ConditionName::Peer => {
            let (asn, others) = with_value::<AsWord>(alloc, word, others)?;
            Ok(Conditions {
                peer: Some(asn),
                ..others
            })
        }
        ConditionName::From => {
            let (addr, others) = with_value::<AddressWord>(alloc, word, others)?;
            Ok(Conditions {
                from: Some(addr),
                ..others
            })
        }
        ConditionName::Prefix => {
            let (prefix, others) = with_value::<PrefixWord>(alloc, word, others)?;
            Ok(Conditions {
                prefix: Some(prefix),
                ..others
            })
        }
        ConditionName::Within => {
            let (prefix, others) = with_value::<PrefixWord>(alloc, word, others)?;
            Ok(Conditions {
                within: Some(prefix),
                ..others
            })
        }
        ConditionName::Covering => {
            let (prefix, others) = with_value::<PrefixWord>(alloc, word, others)?;
            Ok(Conditions {
                covering: Some(prefix),
                ..others
            })
        }
        ConditionName::Origin => {
            let (asn, others) = with_value::<AsWord>(alloc, word, others)?;
            Ok(Conditions {
                origin: Some(asn),
                ..others
            })
        }
        ConditionName::Through => {
            let (asn, others) = with_value::<AsWord>(alloc, word, others)?;
            Ok(Conditions {
                through: Some(asn),
                ..others
            })
        }
    }
}

// A condition's value beside the other conditions, or the fault that comes first.
fn with_value<K: Kind>(
    alloc: Global,
    word: &[u8],
    others: Result<Conditions, LineFault>,
) -> Result<(K::Value, Conditions), LineFault>
    ensures spelled { IfOk result (λ r. Spells K.kind word.now (K.value r.0) × (others ≡ Ok r.1)) }
    ensures refused { IfErr result (RefusesWith K.kind word.now others) }
{
    both(K::read(alloc, word), others)
}
