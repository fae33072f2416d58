//! The numbers of a form, and what the form comes to.
ghost use Rattle.std.specs.Prelude.{◌≡◌, map, option_map, IfSome, IfNone};
ghost use Rattle.json_fields.specs.Each.{Each};
ghost use Rattle.validated.specs.Answers.{Finds, Reads};
ghost use Rattle.validated.specs.Content.{AreAttestations, Attests, ContentIs, IsEnd, IsNumber, attested_view};
ghost use Rattle.validated.specs.Form.{aspa_view, draft_view, numeral_view};

use crate::draft::{Draft, DraftAspa, Numeral};
use crate::fault::ValidatedFault;
use crate::records::read_records;
use crate::validated_file::Validated;
use attestations::{GatheredTerms, Terms};
use path_model::AsList;
use std::alloc::Global;

// What one attestation attests.
#[derive(Drop)]
pub(crate) struct Attested {
    pub(crate) customer: u32,
    pub(crate) providers: AsList,
    pub(crate) until: Option<u32>,
}

// Reads all numbers of a form, and then its prefixes.
pub(crate) fn read_content(alloc: Global, draft: Draft) -> Result<Validated, ValidatedFault>
    ensures { ContentIs (draft_view draft) result }
{
    let Draft { aspas, roas } = draft;
    let attestations = read_attestations(alloc, &aspas)?;
    let payloads = read_records(alloc, roas)?;
    Ok(Validated {
        attestations,
        payloads,
    })
}

// What the attestations attest, of each customer the set of them.
fn read_attestations(alloc: Global, aspas: &[DraftAspa]) -> Result<Terms, ValidatedFault>
    ensures { Finds ValidatedFault.Number result (AreAttestations (map aspa_view aspas.now)) }
{
    let mut gathered = GatheredTerms::new(alloc);
    for aspa in aspas {
        let attested = read_attested(alloc, aspa)?;
        let providers = attested.providers.as_slice();
        gathered.gather(attested.customer, providers, attested.until)?;
    }
    Ok(gathered.into_terms()?)
}

// What one attestation attests.
fn read_attested(alloc: Global, aspa: &DraftAspa) -> Result<Attested, ValidatedFault>
    ensures { Reads ValidatedFault.Number attested_view result (Attests (aspa_view aspa.now)) }
{
    let customer = aspa.customer.number.ok_or(ValidatedFault::Number)?;
    let asns = read_asns(alloc, &aspa.providers)?;
    let until = read_end(aspa.expires).ok_or(ValidatedFault::Number)?;
    let providers = asns.into_set();
    Ok(Attested {
        customer,
        providers,
        until,
    })
}

// AS numbers, in order.
fn read_asns(alloc: Global, numerals: &[Numeral]) -> Result<AsList, ValidatedFault>
    ensures { Finds ValidatedFault.Number result (Each IsNumber (map numeral_view numerals.now)) }
{
    let mut asns = AsList::new(alloc);
    for numeral in numerals {
        let Some(asn) = numeral.number else {
            return Err(ValidatedFault::Number);
        };
        asns.push(asn)?;
    }
    Ok(asns)
}

// The end that is written, or none where none is.
pub(crate) fn read_end(expires: Option<Numeral>) -> Option<Option<u32>>
    ensures some { IfSome result (IsEnd (option_map numeral_view expires)) }
    ensures none { IfNone result
        ((until : _) → IsEnd (option_map numeral_view expires) until → ⊥) }
{
    let Some(numeral) = expires else {
        return Some(None);
    };
    let moment = numeral.number?;
    Some(Some(moment))
}
