//! What may happen to an analysis.
use path_model::{Changes, Role};
use vap_table::TableChange;

/// What one record, message or command makes happen.
#[derive(Debug, Drop)]
pub enum Event {
    /// Routes are announced and withdrawn, and peers go, in this order.
    Routes(Changes),
    /// What attests changes.
    Table(TableChange),
    /// This AS has this role from now on.
    Role(u32, Role),
    /// Each AS that has no role of its own has this one from now on.
    DefaultRole(Role),
}
