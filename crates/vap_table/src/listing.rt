//! The last moments of some customers are listed again.
ghost use Rattle.std.specs.Prelude.{IfOk, OnOk};
ghost use Rattle.attestations.specs.Attested.{attested_list};
ghost use Rattle.vap_table.specs.Lasts.{all_terms, AddsLasts, DropsLasts, AreLasts, AreLastsBut};

use crate::customers::Customers;
use crate::lasts::Lasts;
use crate::sources::Sources;
use attestations::Attested;
use av_base::NoMemory;

impl Sources {
    // The last moments of a customer's attestations are listed.
    fn add_lasts(&self, lasts: &mut Lasts, customer: u32) -> Result<(), NoMemory>
        ensures { OnOk result
            (AddsLasts lasts.old customer (all_terms self.now customer) lasts.new) }
    {
        for (_, terms) in self.as_slice() {
            add_of(lasts, customer, terms.of_customer(customer))?;
        }
        Ok(())
    }

    // They aren't listed.
    fn remove_lasts(&self, lasts: &mut Lasts, customer: u32)
        ensures { DropsLasts lasts.old customer (all_terms self.now customer) lasts.new }
    {
        for (_, terms) in self.as_slice() {
            remove_of(lasts, customer, terms.of_customer(customer));
        }
    }
}

// The last moments of these attestations, if there are any, are listed.
fn add_of(lasts: &mut Lasts, customer: u32, attested: Option<Attested<'_>>) -> Result<(), NoMemory>
    ensures { OnOk result (AddsLasts lasts.old customer (attested_list attested.entry) lasts.new) }
{
    match attested {
        Some(Attested::Terms(terms)) => lasts.add(customer, terms),
        Some(Attested::Row(_)) => Ok(()),
        None => Ok(()),
    }
}

// They aren't listed.
fn remove_of(lasts: &mut Lasts, customer: u32, attested: Option<Attested<'_>>)
    ensures { DropsLasts lasts.old customer (attested_list attested.entry) lasts.new }
{
    match attested {
        Some(Attested::Terms(terms)) => lasts.remove_all(customer, terms),
        Some(Attested::Row(_)) => {}
        None => {}
    }
}

/// Those of these customers are no longer listed.
pub(crate) fn without(lasts: Lasts, sources: &Sources, names: &Customers) -> Lasts
    requires { AreLasts lasts sources.now }
    ensures { AreLastsBut result sources.now names.now }
{
    let mut lasts = lasts;
    for customer in names.iter() {
        sources.remove_lasts(&mut lasts, *customer);
    }
    lasts
}

/// Those of these customers are listed, where there were none of them.
pub(crate) fn with(lasts: Lasts, sources: &Sources, names: &Customers) -> Result<Lasts, NoMemory>
    requires { AreLastsBut lasts sources.now names.now }
    ensures { IfOk result (λ lasts. AreLasts lasts sources.now) }
{
    let mut lasts = lasts;
    for customer in names.iter() {
        sources.add_lasts(&mut lasts, *customer)?;
    }
    Ok(lasts)
}
