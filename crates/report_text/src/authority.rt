//! What an AS attests of another one, as a word, and what two attest of each other.
ghost use Rattle.std.specs.Prelude.{◌≡◌, ◌++◌, OnOk};
ghost use Rattle.av_text.specs.Parts.{IsGrown};
ghost use Rattle.report_text.specs.AuthorityText.{attested_part, authority_text};

use av_base::NoMemory;
use path_model::Authority;

/// Appends what one AS attests of another one, and that one of it, or a front of that where it fails.
pub(crate) fn push_attested(
    out: &mut Vec<u8>,
    climb: Authority,
    descend: Authority,
) -> Result<(), NoMemory>
    ensures ok { OnOk result (out.new.items ≡ out.old.items ++ attested_part climb descend) }
    ensures grown { IsGrown out.old.items out.new.items }
{
    out.extend_from_slice(b" climb ")?;
    out.extend_from_slice(word_of(climb))?;
    out.extend_from_slice(b" descend ")?;
    out.extend_from_slice(word_of(descend))?;
    Ok(())
}

// The word for it.
fn word_of(authority: Authority) -> &'static [u8]
    ensures { result.now ≡ authority_text authority }
{
    match authority {
        Authority::Provides => b"provides",
        Authority::Refuses => b"refuses",
        Authority::Silent => b"silent",
    }
}
