//! The line that says what the script wants said.
ghost use Rattle.std.specs.Prelude.{◌≡◌, ◌++◌, OnOk, OnErr};
ghost use Rattle.av_text.specs.Parts.{IsGrown};
ghost use Rattle.report_text.specs.Sayings.{said_text};

use av_base::NoMemory;

/// Appends `# ` and the text as it is, whole or not at all. A line has three bytes more than the text with its line feed, and what it takes
/// is that room in `out` alone.
pub fn put_said(out: &mut Vec<u8>, text: &str) -> Result<(), NoMemory>
    ensures ok { OnOk result (out.new.items ≡ out.old.items ++ said_text text.now) }
    ensures err { OnErr result (out.new.items ≡ out.old.items) }
{
    let start = out.len();
    let done = push_said(out, text);
    if done.is_err() {
        out.truncate(start);
    }
    done
}

// Appends the line, or a front of it where that fails.
fn push_said(out: &mut Vec<u8>, text: &str) -> Result<(), NoMemory>
    ensures ok { OnOk result (out.new.items ≡ out.old.items ++ said_text text.now) }
    ensures grown { IsGrown out.old.items out.new.items }
{
    out.extend_from_slice(b"# ")?;
    out.extend_from_slice(text.as_bytes())?;
    out.push(b'\n')?;
    Ok(())
}
