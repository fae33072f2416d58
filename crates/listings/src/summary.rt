//! The summary of an analysis.
ghost use Rattle.listings.specs.Summary.{IsSummary};

use report_text::Summary;
use rib_store::RibStore;

/// Counts the routes by their current verdicts and the customers with a row of the current table. How many units were passed over, and how
/// many lines were written that report a refusal, are given. It takes no memory.
pub fn summary_of(store: &RibStore, passed: u64, refused: u64) -> Summary
    ensures { IsSummary store.now.state passed refused result }
{
    let counts = store.counts();
    let table = store.table();
    Summary {
        routes: counts.routes,
        valid: counts.valid,
        unknown: counts.unknown,
        invalid: counts.invalid,
        customers: table.customers(),
        passed,
        refused,
    }
}
