//! Prefixes and path identifiers as words of 64 bits, so that a list of them takes little memory.
ghost use Rattle.std.specs.Prelude.{◌≡◌, true, false, drop};
ghost use Rattle.path_model.specs.Halves.{subnet_of, IsHeld};
ghost use Rattle.path_model.specs.Packed.{form_of, nlri_at, prefix_at, width_of, words_of, IsNlriAt, IsPrefixAt};

use crate::{Nlri, Prefix};

// A prefix as it is held: the halves of its address, its length and its family.
#[derive(Clone, Copy, Debug)]
pub(crate) struct Held {
    pub(crate) high: u64,
    pub(crate) low: u64,
    pub(crate) len: u8,
    pub(crate) six: bool,
}

// Which words are held.
#[derive(Clone, Copy, Debug)]
pub(crate) struct Form {
    // those of the prefix
    pub(crate) width: Width,
    // whether a path identifier stands before them, in a word of its own
    pub(crate) identified: bool,
}

impl Form {
    // A prefix without an identifier.
    pub(crate) fn bare(width: Width) -> Form
        ensures { result ≡ form_of width false }
    {
        Form {
            width,
            identified: false,
        }
    }

    // A prefix behind its identifier.
    pub(crate) fn identified(width: Width) -> Form
        ensures { result ≡ form_of width true }
    {
        Form {
            width,
            identified: true,
        }
    }
}

// Which words a prefix of a length has.
#[derive(Clone, Copy, Debug)]
pub(crate) enum Width {
    // one, the bits of an IPv4 address
    Four(u8),
    // one, the upper 64 bits of an IPv6 address whose other bits are 0
    High(u8),
    // two, the halves of an IPv6 address
    Both(u8),
}

// What the first words spell, and the words behind them.
pub(crate) fn unpack(form: Form, words: &[u64]) -> (Nlri, &[u64])
    requires { IsNlriAt form words.now }
    ensures nlri { result.0 ≡ nlri_at form words.now }
    ensures rest { result.1.now ≡ drop (words_of form) words.now }
{
    if form.identified {
        let (prefix, rest) = unpack_prefix(form.width, &words[1..]);
        let path = Some(words[0] as u32);
        (Nlri { prefix, path }, rest)
    } else {
        let (prefix, rest) = unpack_prefix(form.width, words);
        (Nlri { prefix, path: None }, rest)
    }
}

// The prefix that the first words spell, and the words behind it.
fn unpack_prefix(width: Width, words: &[u64]) -> (Prefix, &[u64])
    requires { IsPrefixAt width words.now }
    ensures prefix { result.0 ≡ prefix_at width words.now }
    ensures rest { result.1.now ≡ drop (width_of width) words.now }
{
    match width {
        Width::Four(len) => (of_halves(false, 0, words[0], len), &words[1..]),
        Width::High(len) => (of_halves(true, words[0], 0, len), &words[1..]),
        Width::Both(len) => (of_halves(true, words[0], words[1], len), &words[2..]),
    }
}

fn of_halves(six: bool, high: u64, low: u64, len: u8) -> Prefix
    requires { IsHeld six high low len }
    ensures { result ≡ subnet_of six high low len }
{
    Prefix::from_held(Held {
        high,
        low,
        len,
        six,
    })
}
