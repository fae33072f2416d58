//! What a validator's file says.
use attestations::Terms;
use origin_model::VrpSet;

/// What a validator's file says.
#[derive(Debug, Drop)]
pub struct Validated {
    /// The attestations of each customer, each with its end.
    pub attestations: Terms,
    /// The records of origin validation, where the file has an array of them.
    pub payloads: Option<VrpSet>,
}
