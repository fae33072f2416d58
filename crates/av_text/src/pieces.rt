//! The words of a line, one after another.
ghost use Rattle.std.specs.Prelude.{◌≡◌, Bool, not, position};
ghost use Rattle.av_text.specs.Words.{is_blank as blank};

/// The words of a line that are still to come, in order. A word is a longest piece without space
/// and tab, so none is empty.
#[derive(Clone, Copy, Debug)]
pub struct Words<'a> {
    // the part of the line that no word was taken from yet
    pub(crate) rest: &'a [u8],
}

impl<'a> Iterator for Words<'a> {
    ghost use Rattle.std.specs.Iterator.{YieldsFirstBy, item_count};
    ghost use Rattle.av_text.specs.Words.{words_left};

    type Item = &'a [u8];

    ghost next_gives = { YieldsFirstBy (λ word. word.now) words_left };

    ghost remaining = { item_count words_left };

    fn next(&mut self) -> Option<&'a [u8]> {
        let start = first_in_word(self.rest)?;
        let (_, line) = self.rest.split_at(start);
        let end = first_blank(line).unwrap_or(line.len());
        let (word, rest) = line.split_at(end);
        self.rest = rest;
        Some(word)
    }
}

// Where the first byte of a word stands.
fn first_in_word(line: &[u8]) -> Option<usize>
    ensures { result ≡ position (λ byte. not (blank byte)) line.now }
{
    line.iter().position(|byte| !is_blank(*byte))
}

// Where the first blank stands.
fn first_blank(line: &[u8]) -> Option<usize>
    ensures { result ≡ position blank line.now }
{
    line.iter().position(|byte| is_blank(*byte))
}

// Blanks part words: a space or a tab.
fn is_blank(byte: u8) -> bool
    ensures { result ≡ blank byte }
{
    byte == b' ' || byte == b'\t'
}
