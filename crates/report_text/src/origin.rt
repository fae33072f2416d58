//! The line that reports the state of a route's origin.
ghost use Rattle.std.specs.Prelude.{◌≡◌, ◌++◌, ◌≤◌, length, OnOk, OnErr};
ghost use Rattle.av_text.specs.Parts.{IsGrown};
ghost use Rattle.report_text.specs.Origins.{origin_text, state_text};

use crate::key::push_key;
use av_base::NoMemory;
use origin_model::OriginState;
use path_model::Key;

/// Appends `ADDRESS AS PREFIX STATE`, the peer's address first, whole or not at all. Where the route has a path identifier, ` path ID`
/// stands behind PREFIX. STATE is `valid`, `invalid` or `not-found` (RFC 6811, section 2). A line has 26 to 121 bytes with its line feed,
/// and what it takes is that room in `out` alone.
pub fn put_origin(out: &mut Vec<u8>, key: &Key, state: OriginState) -> Result<(), NoMemory>
    ensures ok { OnOk result (out.new.items ≡ out.old.items ++ origin_text key.now state) }
    ensures err { OnErr result (out.new.items ≡ out.old.items) }
{
    let start = out.len();
    let done = push_origin(out, key, state);
    if done.is_err() {
        out.truncate(start);
    }
    done
}

// Appends the line, or a front of it where that fails.
fn push_origin(out: &mut Vec<u8>, key: &Key, state: OriginState) -> Result<(), NoMemory>
    ensures ok { OnOk result (out.new.items ≡ out.old.items ++ origin_text key.now state) }
    ensures grown { IsGrown out.old.items out.new.items }
{
    push_key(out, key)?;
    out.push(b' ')?;
    out.extend_from_slice(word_of(state))?;
    out.push(b'\n')?;
    Ok(())
}

/// The word for a state, of nine bytes at most.
pub(crate) fn word_of(state: OriginState) -> &'static [u8]
    ensures word { result.now ≡ state_text state }
    ensures short { length result.now ≤ 9 }
{
    match state {
        OriginState::Valid => b"valid",
        OriginState::Invalid => b"invalid",
        OriginState::NotFound => b"not-found",
    }
}
