//! What judgements rest on.

use path_model::{Roles, Table};

/// A table of attestations, and the roles of the peers: what judgements rest on, lent to who judges.
#[derive(Drop)]
pub struct Grounds<'a, T: Table> {
    /// The table.
    pub table: &'a T,
    /// The roles.
    pub roles: &'a Roles,
}
