//! What a SLURM file says.
use origin_model::{PrefixFilters, VrpSet};
use path_model::{AsList, Rows};

/// What a SLURM file says of attestations and of ROA payloads.
#[derive(Debug, Drop)]
pub struct Slurm {
    /// The customers whose attestations are filtered out, strictly ascending.
    pub filters: AsList,
    /// What is asserted, united per customer. A customer may be asserted to have no provider.
    pub assertions: Rows,
    /// The filters that hit payloads, in the order of the file (RFC 8416, section 3.3.1).
    pub prefix_filters: PrefixFilters,
    /// The payloads that are asserted (RFC 8416, section 3.4.1).
    pub prefix_assertions: VrpSet,
}
