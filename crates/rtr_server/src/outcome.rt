//! What comes of routers.
use report_text::Cause;

/// Why a router was served no further, where that is reported.
#[derive(Clone, Copy, Debug, PartialEq, Eq)]
pub enum RouterEnd {
    /// A send or a receive failed.
    Lost,
    /// As many PDUs were taken as are taken from one router, and more would have been.
    Short,
}

/// A PDU that was refused.
#[derive(Clone, Copy, Debug, PartialEq, Eq)]
pub struct Refusal {
    /// Its number in the connection, from 1.
    pub number: u64,
    /// Why, 15 to 18.
    pub cause: Cause,
}

/// What came of a router.
#[derive(Clone, Copy, Debug, PartialEq, Eq)]
pub struct Outcome {
    /// How many answers were sent whole, each with its End of Data.
    pub answers: u64,
    /// The PDU that was refused, if one was.
    pub refused: Option<Refusal>,
    /// Its end, where that is reported.
    pub end: Option<RouterEnd>,
}
