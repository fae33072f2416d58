//! Names as text.
ghost use Rattle.std.specs.Prelude.{IfOk, IfSome, IfNone};
ghost use Rattle.path_model.specs.Name.{IsName};
ghost use Rattle.av_text.specs.NameText.{IsNameText};

use av_base::NoMemory;
use path_model::Name;
use std::alloc::Global;

/// Reads a whole text as a name: 1 to 64 bytes, each a letter, a digit, `.`, `_` or `-`. A name's text is itself.
pub fn read_name(alloc: Global, text: &[u8]) -> Result<Option<Name>, NoMemory>
    ensures name { IfOk result (λ found. IfSome found (IsNameText text.now)) }
    ensures none { IfOk result (λ found. IfNone found (¬ IsName text.now)) }
{
    Name::new(alloc, text)
}
