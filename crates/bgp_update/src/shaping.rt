//! The parts of an UPDATE in its message.
ghost use Rattle.std.specs.Prelude.{Option, option_map, IfOk, OnErr, IfSome, IfNone};
ghost use Rattle.bgp_update.specs.Updates.{Update, IsUpdate, IsMessage};
ghost use Rattle.bgp_update.specs.Views.{update_of};

use crate::fault::UpdateFault;
use crate::framing::unframed;
use crate::parting::Parts;
use bgp_attrs::{prefixes, take_block};

const UPDATE: u8 = 2;

// The parts of a message that is an UPDATE; `None` for one in form that is none.
pub(crate) fn message_parts(
    message: &[u8],
    add_path: bool,
) -> Result<Option<Parts<'_>>, UpdateFault>
    ensures ok { IfOk result (λ parts. IsMessage add_path message.now (option_map update_of parts)) }
    ensures err { OnErr result ((shape : Option Update) → IsMessage add_path message.now shape → ⊥) }
{
    match unframed(message) {
        Some((kind, rest)) => {
            if kind != UPDATE {
                return Ok(None);
            }
            match update_parts(rest, add_path) {
                Some(parts) => Ok(Some(parts)),
                None => Err(UpdateFault::Message),
            }
        }
        None => Err(UpdateFault::Message),
    }
}

// The parts of the bytes behind an UPDATE's header.
fn update_parts(rest: &[u8], add_path: bool) -> Option<Parts<'_>>
    ensures some { IfSome result (λ parts. IsUpdate add_path rest.now (update_of parts)) }
    ensures none { IfNone result ((update : Update) → IsUpdate add_path rest.now update → ⊥) }
{
    let (withdrawn, rest) = take_block(rest)?;
    let (attributes, rest) = take_block(rest)?;
    let withdrawn = prefixes(withdrawn, false, add_path)?;
    let announced = prefixes(rest, false, add_path)?;
    Some(Parts {
        withdrawn,
        attributes,
        announced,
    })
}
