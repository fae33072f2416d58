//! Verdicts as text.
ghost use Rattle.std.specs.Prelude.{◌≡◌, ◌++◌, OnOk, OnErr};
ghost use Rattle.av_text.specs.VerdictText.{verdict_text};

use av_base::NoMemory;
use path_model::Verdict;

/// Appends the word for a verdict: `valid`, `unknown` or `invalid`.
pub fn put_verdict(out: &mut Vec<u8>, verdict: Verdict) -> Result<(), NoMemory>
    ensures ok { OnOk result (out.new.items ≡ out.old.items ++ verdict_text verdict) }
    ensures err { OnErr result (out.new.items ≡ out.old.items) }
{
    out.extend_from_slice(word_of(verdict))?;
    Ok(())
}

// The word for a verdict.
fn word_of(verdict: Verdict) -> &'static [u8]
    ensures { result.now ≡ verdict_text verdict }
{
    match verdict {
        Verdict::Valid => b"valid",
        Verdict::Unknown => b"unknown",
        Verdict::Invalid => b"invalid",
    }
}
