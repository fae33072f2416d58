//! The prefixes of a form, and what they come to.
ghost use Rattle.std.specs.Prelude.{◌≡◌, ◌<◌, map, option_map, IfSome, IfNone};
ghost use Rattle.serde_json.specs.View.{number_view};
ghost use Rattle.slurm_rules.specs.Answers.{Finds};
ghost use Rattle.json_fields.specs.Each.{Each};
ghost use Rattle.json_fields.specs.Tokens.{text_view};
ghost use Rattle.slurm_rules.specs.Form.{prefix_assertion_view, prefix_filter_view};
ghost use Rattle.slurm_rules.specs.Numbers.{ArePrefixAssertions, IsFilterOf, IsMax, IsPayloadOf, IsPrefixIfThere};

use crate::draft::{DraftPrefixAssertion, DraftPrefixFilter};
use crate::fault::SlurmFault;
use crate::numbers::{read_asn, read_asn_if_there};
use any_prefix::read_any_prefix;
use origin_model::{PrefixFilter, PrefixFilters, Vrp, VrpSet};
use path_model::Prefix;
use serde_json::Number;
use std::alloc::Global;

// The prefix filters, in order.
pub(crate) fn read_prefix_filters(
    alloc: Global,
    filters: &[DraftPrefixFilter],
) -> Result<PrefixFilters, SlurmFault>
    ensures { Finds SlurmFault.PrefixText result
        (Each IsFilterOf (map prefix_filter_view filters.now)) }
{
    let mut list = PrefixFilters::new(alloc);
    for filter in filters {
        let Some(read) = read_prefix_filter(filter) else {
            return Err(SlurmFault::PrefixText);
        };
        list.push(read)?;
    }
    Ok(list)
}

/// The set of the payloads that are asserted. An assertion whose AS isn't a number of 32 bits is refused by the same fault as one whose
/// prefix or maximum length is wrong.
pub fn read_prefix_assertions(
    alloc: Global,
    assertions: &[DraftPrefixAssertion],
) -> Result<VrpSet, SlurmFault>
    ensures { Finds SlurmFault.PrefixText result
        (ArePrefixAssertions (map prefix_assertion_view assertions.now)) }
{
    let mut set = VrpSet::new(alloc);
    for assertion in assertions {
        let Some(vrp) = read_prefix_assertion(assertion) else {
            return Err(SlurmFault::PrefixText);
        };
        set.add(vrp)?;
    }
    // it comes with the order
    let _entries = set.entries();
    Ok(set)
}

// One prefix filter.
fn read_prefix_filter(filter: &DraftPrefixFilter) -> Option<PrefixFilter>
    ensures some { IfSome result (IsFilterOf (prefix_filter_view filter.now)) }
    ensures none { IfNone result ((f : _) → IsFilterOf (prefix_filter_view filter.now) f → ⊥) }
{
    let prefix = read_prefix_if_there(&filter.prefix)?;
    let asn = read_asn_if_there(filter.asn)?;
    Some(PrefixFilter { prefix, asn })
}

// A prefix, if one is there.
fn read_prefix_if_there(text: &Option<Vec<u8>>) -> Option<Option<Prefix>>
    ensures some { IfSome result (IsPrefixIfThere (text_view text.now)) }
    ensures none { IfNone result ((p : _) → IsPrefixIfThere (text_view text.now) p → ⊥) }
{
    match text {
        None => Some(None),
        Some(text) => {
            let prefix = read_any_prefix(text)?;
            Some(Some(prefix))
        }
    }
}

// The payload that one prefix assertion asserts.
fn read_prefix_assertion(assertion: &DraftPrefixAssertion) -> Option<Vrp>
    ensures some { IfSome result (IsPayloadOf (prefix_assertion_view assertion.now)) }
    ensures none { IfNone result
        ((v : _) → IsPayloadOf (prefix_assertion_view assertion.now) v → ⊥) }
{
    let Some(prefix) = read_any_prefix(&assertion.prefix) else {
        return None;
    };
    let Some(max) = read_max(assertion.max, &prefix) else {
        return None;
    };
    let Some(asn) = read_asn(&assertion.asn) else {
        return None;
    };
    Vrp::new(prefix, max, asn)
}

// The maximum length, below 256.
fn read_max(number: Option<Number>, prefix: &Prefix) -> Option<u8>
    ensures some { IfSome result (IsMax (option_map number_view number) prefix.now) }
    ensures none { IfNone result
        ((max : _) → IsMax (option_map number_view number) prefix.now max → max < 256 → ⊥) }
{
    let Some(number) = number else {
        return Some(prefix.len());
    };
    u8::try_from(number.as_u64()?).ok()
}
