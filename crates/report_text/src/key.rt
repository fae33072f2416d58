//! The text of a route's key.
ghost use Rattle.std.specs.Prelude.{◌≡◌, ◌++◌, OnOk};
ghost use Rattle.av_text.specs.Parts.{IsGrown};
ghost use Rattle.report_text.specs.Keys.{identifier_text, key_text};

use crate::count::push_count;
use av_base::NoMemory;
use av_text::{put_peer, put_prefix};
use path_model::Key;

/// Appends `ADDRESS AS PREFIX`, and ` path ID` behind it where the route has a path identifier, or a front of that where it fails.
pub(crate) fn push_key(out: &mut Vec<u8>, key: &Key) -> Result<(), NoMemory>
    ensures ok { OnOk result (out.new.items ≡ out.old.items ++ key_text key.now) }
    ensures grown { IsGrown out.old.items out.new.items }
{
    put_peer(out, &key.peer)?;
    out.push(b' ')?;
    put_prefix(out, &key.prefix)?;
    push_identifier(out, key.path)
}

// Appends the path identifier behind its word, or a front of that where it fails, and nothing where there is none.
fn push_identifier(out: &mut Vec<u8>, path: Option<u32>) -> Result<(), NoMemory>
    ensures ok { OnOk result (out.new.items ≡ out.old.items ++ identifier_text path) }
    ensures grown { IsGrown out.old.items out.new.items }
{
    match path {
        None => Ok(()),
        Some(id) => push_count(out, b" path ", u64::from(id)),
    }
}
