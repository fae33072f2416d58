//! The line that reports a feed's end, or that of a router that is served.
ghost use Rattle.std.specs.Prelude.{◌≡◌, ◌++◌, OnOk, OnErr};
ghost use Rattle.av_text.specs.Parts.{IsGrown};
ghost use Rattle.report_text.specs.Feeds.{end_word as word_of_end, feed_text};

use crate::count::push_count;
use av_base::NoMemory;
use path_model::Name;

/// What is reported of a feed beside its PDUs, or of a router that is served.
#[derive(Clone, Copy, Debug, PartialEq, Eq)]
pub enum FeedEnd {
    /// There was no connection to be had.
    Unreachable,
    /// The connection ended or failed.
    Lost,
    /// As many PDUs as were asked for came, and the feed isn't ready; or as many as are taken of a router.
    Short,
}

/// Appends `! line L NAME unreachable`, `lost` or `short` in the last place, whole or not at all. Lines are numbered from 1, and the name
/// of routers that are served is `serve`. What it takes is that room in `out` alone.
pub fn put_feed(out: &mut Vec<u8>, line: u64, name: &Name, end: FeedEnd) -> Result<(), NoMemory>
    ensures ok { OnOk result (out.new.items ≡ out.old.items ++ feed_text line name.now end) }
    ensures err { OnErr result (out.new.items ≡ out.old.items) }
{
    let start = out.len();
    let done = push_feed(out, line, name, end);
    if done.is_err() {
        out.truncate(start);
    }
    done
}

// Appends the line, or a front of it where that fails.
fn push_feed(out: &mut Vec<u8>, line: u64, name: &Name, end: FeedEnd) -> Result<(), NoMemory>
    ensures ok { OnOk result (out.new.items ≡ out.old.items ++ feed_text line name.now end) }
    ensures grown { IsGrown out.old.items out.new.items }
{
    push_count(out, b"! line ", line)?;
    out.push(b' ')?;
    out.extend_from_slice(name.text().as_bytes())?;
    out.push(b' ')?;
    out.extend_from_slice(end_word(end))?;
    out.push(b'\n')?;
    Ok(())
}

// The word of a feed's end.
fn end_word(end: FeedEnd) -> &'static [u8]
    ensures { result.now ≡ word_of_end end }
{
    match end {
        FeedEnd::Unreachable => b"unreachable",
        FeedEnd::Lost => b"lost",
        FeedEnd::Short => b"short",
    }
}
