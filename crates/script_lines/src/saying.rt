//! Words that a line says, joined.
ghost use Rattle.std.specs.Prelude.{◌≡◌, ◌++◌, ◌∷◌, All, IfOk};
ghost use Rattle.script_lines.specs.Word.{IsSaid};

use crate::word::Word;
use av_base::NoMemory;
use std::marker::Model;

/// Words of printable ASCII with one space between two, as many as a line has. It takes 24 bytes beside its text.
#[derive(Debug, Drop)]
pub struct Saying {
    text: String,
}

impl Model for Saying {
    ghost use Rattle.std.specs.Prelude.{All, List, ℕ, string_bytes};
    ghost use Rattle.script_lines.specs.Word.{IsSaid};

    ghost Value = { List ℕ };

    ghost view = { λ s. string_bytes s.text };

    ghost invariant = { λ s. All IsSaid (string_bytes s.text) };
}

impl Saying {
    /// Its text.
    pub fn text(&self) -> &str
        ensures text { result.now ≡ self.now }
        ensures said { All IsSaid self.now }
    {
        self.text.as_str()
    }

    /// One word more, behind a space.
    pub(crate) fn with(self, word: &Word) -> Result<Saying, NoMemory>
        ensures { IfOk result (λ saying. saying ≡ self ++ 32 ∷ word.now) }
    {
        let Saying { mut text } = self;
        text.push(' ')?;
        text.push_str(word.text())?;
        Ok(Saying { text })
    }
}

impl From<Word> for Saying {
    ghost from_gives = { λ word saying. saying ≡ word };

    fn from(word: Word) -> Saying {
        Saying {
            text: word.into_text(),
        }
    }
}
