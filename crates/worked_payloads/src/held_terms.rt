//! Attestations by customer: given, replaced, taken away, and lent one customer after another.
use attestations::{Attested, Terms};
use av_base::NoMemory;
use path_model::{AsList, Rows};
use std::alloc::Global;

// How many customers are lent one after another, and how many attestations of them.
fn counted(terms: &Terms) -> (usize, usize) {
    let mut customers = 0_usize;
    let mut attestations = 0_usize;
    for (_, attested) in terms.entries() {
        let more = match attested {
            Attested::Row(_) => 1,
            Attested::Terms(terms) => terms.len(),
        };
        customers = customers.saturating_add(1);
        attestations = attestations.saturating_add(more);
    }
    (customers, attestations)
}

// Whether the customer's only attestation is of these providers, and ends at this moment or never.
fn is_only(terms: &Terms, customer: u32, providers: &[u32], until: Option<u32>) -> bool {
    match terms.of_customer(customer) {
        None => false,
        Some(Attested::Row(row)) => until.is_none() && row.as_slice() == providers,
        Some(Attested::Terms(terms)) => match terms {
            [term] => term.until == until && term.providers.as_slice() == providers,
            _ => false,
        },
    }
}

// The rows of two customers, as attestations that never end.
fn two(alloc: Global) -> Result<Terms, NoMemory> {
    let mut rows = Rows::new(alloc);
    rows.set(64_496, AsList::from_slice(alloc, &[64_497])?)?;
    rows.set(64_499, AsList::from_slice(alloc, &[0])?)?;
    Terms::of(alloc, rows)
}

// Two more of a customer, of which one comes twice with its providers in another order.
fn four(alloc: Global) -> Result<Terms, NoMemory> {
    let mut terms = two(alloc)?;
    terms.unite(64_496, &[64_498, 64_497], Some(9))?;
    terms.unite(64_496, &[64_497, 64_498, 64_497], Some(9))?;
    terms.unite(64_496, &[64_497], Some(8))?;
    Ok(terms)
}

// A row in the place of all three, and nothing in the place of the other customer's row.
fn one(alloc: Global) -> Result<Terms, NoMemory> {
    let mut terms = four(alloc)?;
    terms.set_row(64_496, AsList::from_slice(alloc, &[64_500])?)?;
    terms.remove(64_499);
    Ok(terms)
}

#[test]
fn holds_terms(rt: HostRuntime) -> Result<(), NoMemory> {
    assert!(rt; counted(&two(rt.alloc())?) == (2, 2));
    assert!(rt; is_only(&two(rt.alloc())?, 64_499, &[0], None));
    assert!(rt; counted(&four(rt.alloc())?) == (2, 4));
    assert!(rt; counted(&one(rt.alloc())?) == (1, 1));
    assert!(rt; is_only(&one(rt.alloc())?, 64_496, &[64_500], None));
    Ok(())
}

// An only attestation that ends, in a row's place.
fn ending(alloc: Global) -> Result<Terms, NoMemory> {
    let mut terms = one(alloc)?;
    terms.remove(64_496);
    terms.unite(64_496, &[64_500], Some(4_294_967_295))?;
    Ok(terms)
}

// A row without a provider in its place.
fn ended(alloc: Global) -> Result<Terms, NoMemory> {
    let mut terms = ending(alloc)?;
    terms.set_row(64_496, AsList::new(alloc))?;
    Ok(terms)
}

#[test]
fn holds_a_term_that_ends(rt: HostRuntime) -> Result<(), NoMemory> {
    assert!(rt; is_only(&ending(rt.alloc())?, 64_496, &[64_500], Some(4_294_967_295)));
    assert!(rt; is_only(&ended(rt.alloc())?, 64_496, &[], None));
    Ok(())
}
