//! What changes make of a set of payloads.
ghost use Rattle.std.specs.Prelude.{OnOk};
ghost use Rattle.origin_model.specs.VrpChanges.{Patches};
ghost use Rattle.origin_validation.specs.Records.{HasAsSaid};

use av_base::NoMemory;
use origin_model::{Vrp, VrpChanges, VrpSet};

// Makes the changes, one after another. Where there is no memory, some of them are made.
pub(crate) fn apply(set: &mut VrpSet, changes: &VrpChanges) -> Result<(), NoMemory>
    ensures { OnOk result (Patches changes.now set.old set.new) }
{
    for (v, announced) in changes.entries() {
        apply_one(set, v, announced)?;
    }
    // it comes with the order of the set
    let _members = set.entries();
    Ok(())
}

// The payload is there from now on where it was announced, and isn't where it was withdrawn.
fn apply_one(set: &mut VrpSet, v: &Vrp, announced: bool) -> Result<(), NoMemory>
    ensures { OnOk result (HasAsSaid set.old v.now announced set.new) }
{
    if announced {
        set.add(*v)?;
    } else {
        set.drop_one(v);
    }
    Ok(())
}
