//! The records of origin validation of a form. They are read as the prefix assertions of a SLURM file are.
ghost use Rattle.std.specs.Prelude.{◌≡◌, map, option_map, IfSome, IfNone};
ghost use Rattle.json_fields.specs.Tokens.{items_view};
ghost use Rattle.json_fields.specs.Each.{Each};
ghost use Rattle.slurm_rules.specs.Form.{prefix_assertion_view, prefix_assertions_view};
ghost use Rattle.slurm_rules.specs.Numbers.{ArePrefixAssertions};
ghost use Rattle.validated.specs.Answers.{Finds, Reads, of_slurm};
ghost use Rattle.validated.specs.Content.{Asserts, PayloadsAre, RecordsAre};
ghost use Rattle.validated.specs.Form.{roa_view};

use crate::content::read_end;
use crate::draft::DraftRoa;
use crate::fault::ValidatedFault;
use origin_model::VrpSet;
use serde_json::Number;
use slurm_rules::{DraftPrefixAssertion, SlurmFault, read_prefix_assertions};
use std::alloc::Global;

// Reads the numbers and then the prefixes of the records, where there is an array of them.
pub(crate) fn read_records(
    alloc: Global,
    roas: Option<Vec<DraftRoa>>,
) -> Result<Option<VrpSet>, ValidatedFault>
    ensures { RecordsAre (option_map (items_view roa_view) roas) result }
{
    let Some(roas) = roas else {
        return Ok(None);
    };
    let payloads = read_payloads(alloc, roas)?;
    Ok(Some(payloads))
}

// The same of an array.
fn read_payloads(alloc: Global, roas: Vec<DraftRoa>) -> Result<VrpSet, ValidatedFault>
    ensures { PayloadsAre ((items_view roa_view) roas) result }
{
    let assertions = read_assertions(alloc, roas)?;
    read_prefixes(alloc, &assertions)
}

// The records as prefix assertions.
fn read_assertions(
    alloc: Global,
    roas: Vec<DraftRoa>,
) -> Result<Vec<DraftPrefixAssertion>, ValidatedFault>
    ensures { Reads ValidatedFault.Number prefix_assertions_view result
        (Each Asserts ((items_view roa_view) roas)) }
{
    let mut assertions = Vec::new(alloc);
    for roa in roas {
        let Some(assertion) = read_assertion(roa) else {
            return Err(ValidatedFault::Number);
        };
        assertions.push(assertion)?;
    }
    Ok(assertions)
}

// One record as a prefix assertion. Its end is tested and let go.
fn read_assertion(roa: DraftRoa) -> Option<DraftPrefixAssertion>
    ensures some { IfSome result (λ a. Asserts (roa_view roa) (prefix_assertion_view a)) }
    ensures none { IfNone result ((a : _) → Asserts (roa_view roa) a → ⊥) }
{
    let DraftRoa {
        asn,
        prefix,
        max,
        expires,
    } = roa;
    let Some(asn) = asn.number else {
        return None;
    };
    let Some(_until) = read_end(expires) else {
        return None;
    };
    let asn = Number::from(asn);
    Some(DraftPrefixAssertion { prefix, asn, max })
}

// The set of the payloads that are asserted.
fn read_prefixes(
    alloc: Global,
    assertions: &[DraftPrefixAssertion],
) -> Result<VrpSet, ValidatedFault>
    ensures { Finds ValidatedFault.Prefix result
        (ArePrefixAssertions (map prefix_assertion_view assertions.now)) }
{
    match read_prefix_assertions(alloc, assertions) {
        Ok(set) => Ok(set),
        Err(fault) => Err(of_slurm(fault)),
    }
}

// The fault of assertions that are refused.
fn of_slurm(fault: SlurmFault) -> ValidatedFault
    ensures { result ≡ of_slurm fault }
{
    match fault {
        SlurmFault::NoMemory => ValidatedFault::NoMemory,
        _ => ValidatedFault::Prefix,
    }
}
