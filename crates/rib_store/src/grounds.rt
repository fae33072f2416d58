//! What the verdicts of a store rest on: all that attests, and the roles.
ghost use Rattle.std.specs.Prelude.{◌≡◌};

use crate::RibStore;
use path_model::Roles;
use vap_table::Vaps;

impl RibStore {
    /// All that attests.
    pub fn table(&self) -> &Vaps
        ensures { result.now ≡ self.now.state.parts }
    {
        &self.table
    }

    /// The roles of the peers.
    pub fn roles(&self) -> &Roles
        ensures { result.now ≡ self.now.state.roles }
    {
        &self.roles
    }
}
