//! The words behind a command's name, read as the values of which the command is made.
ghost use Rattle.std.specs.Prelude.{◌≡◌, ◌∷◌, ◌⊎◌, IfOk, IfErr, IsErrOf};
ghost use Rattle.av_text.specs.Words.{words_left};
ghost use Rattle.script_lines.specs.Fields.{joined, RefusesTexts};
ghost use Rattle.script_lines.specs.Forms.{AreAses, AreTexts, SomeNoAs, sentence};

use crate::fault::LineFault;
use crate::kinds::{Kind, TextWord};
use crate::saying::Saying;
use av_text::{Words, read_u32};
use path_model::AsList;
use std::alloc::Global;
use std::marker::PhantomData;

/// The words that follow a command's name, in order.
pub(crate) trait Fields {
    ghost use Rattle.script_lines.specs.Forms.{Form, Builds};
    ghost use Rattle.script_lines.specs.Fields.{AreSpelled, RefusesWords};
    ghost use Rattle.script_lines.specs.declared.commands.Command.{Command};

    type Values: Drop;

    ghost form: { Form };

    ghost build: { Self.Values → Builds form → Command };

    /// Reads all words that are left.
    fn read(alloc: Global, words: Words<'_>) -> Result<Self::Values, LineFault>
        ensures spelled { IfOk result (λ vs. AreSpelled form (build vs) (words_left words.entry)) }
        ensures refused { IfErr result (RefusesWords form (words_left words.entry)) };
}

/// No more words.
pub(crate) struct End;

impl Fields for End {
    ghost use Rattle.script_lines.specs.Forms.{end};

    type Values = ();

    ghost form = { end };

    ghost build = { λ _ command. command };

    fn read(_alloc: Global, mut words: Words<'_>) -> Result<(), LineFault> {
        match words.next() {
            Some(_) => Err(LineFault::Words),
            None => Ok(()),
        }
    }
}

/// A word of this kind, and then others.
pub(crate) struct Then<K, F> {
    kind: PhantomData<K>,
    others: PhantomData<F>,
}

impl<K: Kind, F: Fields> Fields for Then<K, F> {
    ghost use Rattle.script_lines.specs.Forms.{◌then◌};

    type Values = (K::Value, F::Values);

    ghost form = { K.kind then F.form };

    ghost build = { λ vs b. F.build vs.1 (b (K.value vs.0)) };

    fn read(alloc: Global, mut words: Words<'_>) -> Result<(K::Value, F::Values), LineFault> {
        let Some(word) = words.next() else {
            return Err(LineFault::Words);
        };
        both(K::read(alloc, word), F::read(alloc, words))
    }
}

// Both values, or the fault that comes first: a word that isn't spelled right before one that is no number in its range.
pub(crate) fn both<A: Drop, B: Drop>(
    one: Result<A, LineFault>,
    other: Result<B, LineFault>,
) -> Result<(A, B), LineFault>
    ensures { result ≡ joined one other }
{
    match (one, other) {
        (Ok(a), Ok(b)) => Ok((a, b)),
        (Err(LineFault::Number), Err(fault)) => Err(fault),
        (Err(fault), _) => Err(fault),
        (_, Err(fault)) => Err(fault),
    }
}

/// Words of one form, or of another one where they don't fit that.
pub(crate) struct Or<F, G> {
    one: PhantomData<F>,
    other: PhantomData<G>,
}

/// The values of the form that the words have.
#[derive(Drop)]
pub(crate) enum OneOf<A, B> {
    One(A),
    Other(B),
}

impl<F: Fields, G: Fields> Fields for Or<F, G> {
    ghost use Rattle.script_lines.specs.Fields.{either};
    ghost use Rattle.script_lines.specs.Forms.{◌or◌};

    type Values = OneOf<F::Values, G::Values>;

    ghost form = { F.form or G.form };

    ghost build = { λ vs b. either (λ one. F.build one b.0) (λ other. G.build other b.1) vs };

    fn read(alloc: Global, words: Words<'_>) -> Result<OneOf<F::Values, G::Values>, LineFault> {
        match F::read(alloc, words) {
            Ok(values) => Ok(OneOf::One(values)),
            Err(LineFault::Words) => Ok(OneOf::Other(G::read(alloc, words)?)),
            Err(fault) => Err(fault),
        }
    }
}

/// A word of this kind, or no more words.
pub(crate) struct Optional<K> {
    kind: PhantomData<K>,
}

impl<K: Kind> Fields for Optional<K> {
    ghost use Rattle.std.specs.Option.{option_map};
    ghost use Rattle.script_lines.specs.Forms.{optional};

    type Values = Option<K::Value>;

    ghost form = { optional K.kind };

    ghost build = { λ v b. b (option_map K.value v) };

    fn read(alloc: Global, mut words: Words<'_>) -> Result<Option<K::Value>, LineFault> {
        let Some(word) = words.next() else {
            return Ok(None);
        };
        match both(K::read(alloc, word), End::read(alloc, words)) {
            Ok((value, ())) => Ok(Some(value)),
            Err(fault) => Err(fault),
        }
    }
}

/// ASes up to the line's end, at least so many.
pub(crate) struct Ases<const LEAST: usize>;

#[tactic(auto, using(crate::proofs::FormLemmas::ases_steps))]
impl<const LEAST: usize> Fields for Ases<LEAST> {
    ghost use Rattle.script_lines.specs.Forms.{ases};

    type Values = AsList;

    ghost form = { ases LEAST };

    ghost build = { λ ns b. b ns };

    fn read(alloc: Global, words: Words<'_>) -> Result<AsList, LineFault> {
        if words.count() < LEAST {
            return Err(LineFault::Words);
        }
        read_ases(alloc, words)
    }
}

// Reads words each of which must be an AS.
fn read_ases(alloc: Global, words: Words<'_>) -> Result<AsList, LineFault>
    ensures numbers { IfOk result (AreAses (words_left words.entry)) }
    ensures refused { IsErrOf result LineFault.Number → SomeNoAs (words_left words.entry) }
    ensures only { IfErr result (λ f. (f ≡ LineFault.Number) ⊎ (f ≡ LineFault.NoMemory)) }
{
    let mut numbers = AsList::new(alloc);
    for word in words {
        let Some(number) = read_u32(word) else {
            return Err(LineFault::Number);
        };
        numbers.push(number)?;
    }
    Ok(numbers)
}

/// One or more words up to the line's end, whatever they are.
pub(crate) struct Texts;

impl Fields for Texts {
    ghost use Rattle.script_lines.specs.Forms.{texts};

    type Values = Saying;

    ghost form = { texts };

    ghost build = { λ text b. b text };

    fn read(alloc: Global, mut words: Words<'_>) -> Result<Saying, LineFault> {
        let Some(word) = words.next() else {
            return Err(LineFault::Words);
        };
        let first = TextWord::read(alloc, word)?;
        read_more(alloc, Saying::from(first), words)
    }
}

// Reads words behind a first one.
fn read_more(alloc: Global, first: Saying, words: Words<'_>) -> Result<Saying, LineFault>
    ensures spelled { IfOk result (λ saying.
        (saying ≡ sentence (first ∷ words_left words.entry)) × AreTexts (words_left words.entry)) }
    ensures refused { IfErr result (RefusesTexts (words_left words.entry)) }
{
    let mut saying = first;
    for word in words {
        let next = TextWord::read(alloc, word)?;
        saying = saying.with(&next)?;
    }
    Ok(saying)
}
