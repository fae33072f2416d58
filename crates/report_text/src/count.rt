//! Numbers behind their words.
ghost use Rattle.std.specs.Prelude.{◌≡◌, ◌++◌, decimal, OnOk};
ghost use Rattle.av_text.specs.Parts.{IsGrown};

use av_base::NoMemory;
use av_text::put_u64;

/// Appends words and a number, or a front of them where that fails.
pub(crate) fn push_count(out: &mut Vec<u8>, words: &[u8], n: u64) -> Result<(), NoMemory>
    ensures ok { OnOk result (out.new.items ≡ out.old.items ++ words.now ++ decimal n) }
    ensures grown { IsGrown out.old.items out.new.items }
{
    out.extend_from_slice(words)?;
    put_u64(out, n)
}
