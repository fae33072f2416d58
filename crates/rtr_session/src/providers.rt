//! The providers that an announcement names.
ghost use Rattle.std.specs.Prelude.{◌≡◌, IfOk};
ghost use Rattle.rtr_session.specs.Client.{without_zero};

use av_base::NoMemory;
use path_model::AsList;
use std::alloc::Global;

/// The providers less 0, in the order in which they are written.
pub(crate) fn without_zero(alloc: Global, providers: &AsList) -> Result<AsList, NoMemory>
    ensures { IfOk result (λ list. list ≡ without_zero providers.now) }
{
    let mut list = AsList::new(alloc);
    for provider in providers.as_slice() {
        if *provider != 0 {
            list.push(*provider)?;
        }
    }
    Ok(list)
}
