//! Words that a line holds as they are.
ghost use Rattle.std.specs.Prelude.{◌≡◌, ◌↔◌, All, IfOk, IfSome, IfNone, IsTrue, string_bytes};
ghost use Rattle.script_lines.specs.Word.{IsVisible};

use av_base::NoMemory;
use std::alloc::Global;
use std::marker::Model;

/// A word of printable ASCII: the name of a file. It takes 24 bytes beside its text.
#[derive(Debug, Drop)]
pub struct Word {
    text: String,
}

impl Model for Word {
    ghost use Rattle.std.specs.Prelude.{All, List, ℕ, string_bytes};
    ghost use Rattle.script_lines.specs.Word.{IsVisible};

    ghost Value = { List ℕ };

    ghost view = { λ w. string_bytes w.text };

    ghost invariant = { λ w. All IsVisible (string_bytes w.text) };
}

impl Word {
    /// The word of these bytes, or `None` where one of them is a blank or isn't printable ASCII.
    #[tactic(auto, using(crate::proofs::WordLemmas::visible_is_utf8))]
    pub fn new(alloc: Global, bytes: &[u8]) -> Result<Option<Word>, NoMemory>
        ensures word { IfOk result (λ found. IfSome found (λ word. (word ≡ bytes.now) × All IsVisible bytes.now)) }
        ensures none { IfOk result (λ found. IfNone found (¬ All IsVisible bytes.now)) }
    {
        if !are_visible(bytes) {
            return Ok(None);
        }
        match str::from_utf8(bytes) {
            Ok(text) => Ok(Some(Word {
                text: String::from_str(alloc, text)?,
            })),
            Err(_) => Ok(None),
        }
    }

    /// Its text.
    pub fn text(&self) -> &str
        ensures text { result.now ≡ self.now }
        ensures visible { All IsVisible self.now }
    {
        self.text.as_str()
    }

    /// Its text, which the caller keeps. It takes no memory.
    pub(crate) fn into_text(self) -> String
        ensures text { string_bytes result ≡ self }
        ensures visible { All IsVisible self }
    {
        let Word { text } = self;
        text
    }
}

// Whether each byte is printable ASCII other than a blank.
fn are_visible(bytes: &[u8]) -> bool
    ensures { IsTrue result ↔ All IsVisible bytes.now }
{
    bytes.iter().all(|byte| matches!(*byte, b'!'..=b'~'))
}
