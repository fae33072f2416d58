//! The lines of a text, cut off one by one.
ghost use Rattle.std.specs.Prelude.{◌≡◌, ◌<◌, [], length, IfSome, IfNone, position};
ghost use Rattle.std.specs.Str.Lines.{strip_carriage_return};
ghost use Rattle.av_text.specs.Lines.{is_lf, lines_in, IsFirstLine};

/// The first line of a text, and what follows it. The line is without its LF, and without a CR before that LF.
/// A last part without LF is a line where the text is whole.
pub fn next_line(text: &[u8], whole: bool) -> Option<(&[u8], &[u8])>
    ensures none { IfNone result (lines_in whole text.now ≡ []) }
    ensures first { IfSome result (λ cut. IsFirstLine whole text.now cut.0.now cut.1.now) }
    ensures less { IfSome result (λ cut. length cut.1.now < length text.now) }
{
    match line_feed(text) {
        Some(end) => {
            let (line, ending) = text.split_at(end);
            let (_, more) = ending.split_at(1);
            Some((without_carriage_return(line), more))
        }
        None if whole && !text.is_empty() => Some((text, &[])),
        None => None,
    }
}

// Where the first LF stands.
fn line_feed(text: &[u8]) -> Option<usize>
    ensures { result ≡ position is_lf text.now }
{
    text.iter().position(|byte| *byte == b'\n')
}

// The line without the one CR at its end, if it has one.
fn without_carriage_return(line: &[u8]) -> &[u8]
    ensures { result.now ≡ strip_carriage_return line.now }
{
    match line {
        [front @ .., b'\r'] => front,
        _ => line,
    }
}
