//! What the customers attest.
ghost use Rattle.std.specs.Prelude.{◌≡◌, IfOk, OnOk};
ghost use Rattle.stated_workload.specs.Rows.{DrawsProviders, DrawsRows, KeepsRow};

use crate::draws::{draw, draw_ases};
use av_base::NoMemory;
use path_model::{AsList, Rows};
use rand_pcg::Lcg64Xsh32;
use std::alloc::Global;

const CUSTOMERS: u32 = 2000;

/// The rows of all customers.
#[tactic(auto, using(crate::proofs::RowsLemmas::row_steps))]
pub(crate) fn draw_rows(alloc: Global, rng: &mut Lcg64Xsh32) -> Result<Rows, NoMemory>
    ensures { IfOk result (λ rows. DrawsRows 2000 rng.old rows rng.new) }
{
    let mut rows = Rows::new(alloc);
    for done in 0..CUSTOMERS {
        let customer = done + 1;
        let providers = draw_providers(alloc, rng)?;
        keep_row(customer, providers, &mut rows)?;
    }
    Ok(rows)
}

// The providers of one customer.
#[tactic(auto, using(crate::proofs::RowsLemmas::row_steps))]
fn draw_providers(alloc: Global, rng: &mut Lcg64Xsh32) -> Result<AsList, NoMemory>
    ensures { IfOk result (λ providers. DrawsProviders rng.old providers rng.new) }
{
    let count = draw(rng, 4);
    let mut providers = AsList::new(alloc);
    draw_ases(rng, count, &mut providers)?;
    Ok(providers)
}

// A customer without providers has no row.
#[tactic(auto, using(crate::proofs::RowsLemmas::row_steps))]
fn keep_row(customer: u32, providers: AsList, rows: &mut Rows) -> Result<(), NoMemory>
    ensures { OnOk result (KeepsRow rows.old customer providers rows.new) }
{
    if providers.is_empty() {
        return Ok(());
    }
    rows.set(customer, providers)
}
