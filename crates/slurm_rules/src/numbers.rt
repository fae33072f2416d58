//! The numbers of a form, and what the form comes to.
ghost use Rattle.std.specs.Prelude.{◌≡◌, map, option_map, Some, None, IfSome, IfNone};
ghost use Rattle.serde_json.specs.View.{number_view};
ghost use Rattle.json_fields.specs.Each.{Each};
ghost use Rattle.slurm_rules.specs.Answers.{Finds, Reads};
ghost use Rattle.slurm_rules.specs.Form.{assertion_view, draft_view, prefix_assertion_view, prefix_filter_view};
ghost use Rattle.slurm_rules.specs.Numbers.{AreAssertions, Attests, ContentIs, HasAssertedAsn, HasFilteredAsn, IsAsn, IsAsnIfThere, IsOfAny, attested_view};

use crate::draft::{Draft, DraftAssertion, DraftPrefixAssertion, DraftPrefixFilter};
use crate::fault::SlurmFault;
use crate::prefixes::{read_prefix_assertions, read_prefix_filters};
use crate::slurm::Slurm;
use path_model::{AsList, Gathered, Rows};
use serde_json::Number;
use std::alloc::Global;

// What one assertion attests.
#[derive(Drop)]
pub(crate) struct Attested {
    pub(crate) customer: u32,
    pub(crate) providers: AsList,
}

// Reads all numbers of a form, and then its prefixes.
pub(crate) fn read_content(alloc: Global, draft: &Draft) -> Result<Slurm, SlurmFault>
    ensures { ContentIs (draft_view draft.now) result }
{
    let filters = read_asns(alloc, &draft.filters.aspas)?;
    let assertions = read_assertions(alloc, &draft.assertions.aspas)?;
    if !are_filtered_asns(&draft.filters.prefixes) {
        return Err(SlurmFault::Number);
    }
    if !are_asserted_asns(&draft.assertions.prefixes) {
        return Err(SlurmFault::Number);
    }
    let prefix_filters = read_prefix_filters(alloc, &draft.filters.prefixes)?;
    let prefix_assertions = read_prefix_assertions(alloc, &draft.assertions.prefixes)?;
    Ok(Slurm {
        filters: filters.into_set(),
        assertions,
        prefix_filters,
        prefix_assertions,
    })
}

// Whether the ASes of prefix filters are AS numbers, where they are there.
fn are_filtered_asns(filters: &[DraftPrefixFilter]) -> bool
    ensures { IsOfAny result (Each HasFilteredAsn (map prefix_filter_view filters.now)) }
{
    for filter in filters {
        let Some(_asn) = read_asn_if_there(filter.asn) else {
            return false;
        };
    }
    true
}

// Whether the ASes of prefix assertions are AS numbers.
fn are_asserted_asns(assertions: &[DraftPrefixAssertion]) -> bool
    ensures { IsOfAny result (Each HasAssertedAsn (map prefix_assertion_view assertions.now)) }
{
    for assertion in assertions {
        let Some(_asn) = read_asn(&assertion.asn) else {
            return false;
        };
    }
    true
}

// An AS number, if one is there.
pub(crate) fn read_asn_if_there(number: Option<Number>) -> Option<Option<u32>>
    ensures some { IfSome result (IsAsnIfThere (option_map number_view number)) }
    ensures none { IfNone result ((x : _) → IsAsnIfThere (option_map number_view number) x → ⊥) }
{
    let Some(number) = number else {
        return Some(None);
    };
    let asn = read_asn(&number)?;
    Some(Some(asn))
}

// What the assertions attest, united per customer.
fn read_assertions(alloc: Global, assertions: &[DraftAssertion]) -> Result<Rows, SlurmFault>
    ensures { Finds SlurmFault.Number result (AreAssertions (map assertion_view assertions.now)) }
{
    let mut gathered = Gathered::new(alloc);
    for assertion in assertions {
        let attested = read_attested(alloc, assertion)?;
        gathered.gather(attested.customer, attested.providers.as_slice())?;
    }
    Ok(gathered.into_rows()?)
}

// What one assertion attests.
fn read_attested(alloc: Global, assertion: &DraftAssertion) -> Result<Attested, SlurmFault>
    ensures { Reads SlurmFault.Number attested_view result (Attests (assertion_view assertion.now)) }
{
    let customer = read_asn(&assertion.customer).ok_or(SlurmFault::Number)?;
    let providers = read_asns(alloc, &assertion.providers)?;
    Ok(Attested {
        customer,
        providers,
    })
}

// AS numbers, in order.
fn read_asns(alloc: Global, numbers: &[Number]) -> Result<AsList, SlurmFault>
    ensures { Finds SlurmFault.Number result (Each IsAsn (map number_view numbers.now)) }
{
    let mut asns = AsList::new(alloc);
    for number in numbers {
        let Some(asn) = read_asn(number) else {
            return Err(SlurmFault::Number);
        };
        asns.push(asn)?;
    }
    Ok(asns)
}

/// The number as one of 32 bits, if it is one: a whole number that isn't written as a float.
pub fn read_asn(number: &Number) -> Option<u32>
    ensures some { IfSome result (IsAsn (number_view number.now)) }
    ensures none { IfNone result ((x : _) → IsAsn (number_view number.now) x → ⊥) }
{
    u32::try_from(number.as_u64()?).ok()
}
