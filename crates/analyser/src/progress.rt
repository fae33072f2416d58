//! What the lines and units so far have made.
use crate::Analyser;
use origin_validation::Origins;
use otc_check::Marks;

/// The analysis, what stands beside it, and what was counted. It is lent to whatever goes on with it. It stands here, since this is the lowest
/// crate that dumps and feeds share.
#[derive(Drop)]
pub struct Progress {
    /// The analysis.
    pub analyser: Analyser,
    /// What the routes say of Only-to-Customer (RFC 9234, section 5).
    pub marks: Marks,
    /// The payloads of origin validation (RFC 6811).
    pub origins: Origins,
    /// How many units of dumps were passed over.
    pub passed: u64,
    /// How many lines of text report a refusal, or the end of a feed or of a router.
    pub refused: u64,
}
