//! A line cut into its words.
ghost use Rattle.std.specs.Prelude.{◌≡◌};
ghost use Rattle.av_text.specs.Words.{words_of, words_left};

use crate::pieces::Words;

/// The words of a line: its longest pieces without space and tab, in order.
pub fn words(line: &[u8]) -> Words<'_>
    ensures { words_left result ≡ words_of line.now }
{
    Words { rest: line }
}
