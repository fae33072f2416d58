//! Payloads, and the rules that they keep.
ghost use Rattle.std.specs.Prelude.{◌≡◌, ◌≢◌, ◌≤◌, ◌↔◌, [], length, IfOk, IfErr, IsTrue};
ghost use Rattle.std.specs.List.Sorted.{IsStrictlyIncreasing};
ghost use Rattle.aspa_payload.specs.Payload.{IsPayload, IsUnfit, attestation};
ghost use Rattle.aspa_payload.specs.Answers.{UnfitOrMemory};

use crate::fault::PayloadFault;
use path_model::AsList;
use std::alloc::Global;
use std::marker::Model;

/// What one customer attests: some providers, strictly ascending, and not itself.
#[derive(Debug, Drop)]
pub struct Payload {
    customer: u32,
    providers: AsList,
}

impl Model for Payload {
    ghost use Rattle.path_model.specs.Union.{Attestation};
    ghost use Rattle.aspa_payload.specs.Payload.{IsPayload};

    ghost Value = { Attestation };

    ghost view = { λ p. record { customer = p.customer; providers = p.providers } };

    ghost invariant = { λ p. IsPayload (record { customer = p.customer; providers = p.providers }) };
}

impl Payload {
    /// The payload of this attestation, of at most 500,000,000 providers, so that it has a spelling.
    pub fn new(alloc: Global, customer: u32, providers: &[u32]) -> Result<Payload, PayloadFault>
        requires { length providers.now ≤ 500000000 }
        ensures ok { IfOk result (λ payload. payload ≡ attestation customer providers.now) }
        ensures fit { IfOk result IsPayload }
        ensures err { IfErr result (UnfitOrMemory (attestation customer providers.now)) }
    {
        let providers = AsList::from_slice(alloc, providers)?;
        Payload::of(customer, providers)
    }

    // The payload of this attestation, if it keeps the rules.
    pub(crate) fn of(customer: u32, providers: AsList) -> Result<Payload, PayloadFault>
        ensures ok { IfOk result (λ payload. payload ≡ attestation customer providers) }
        ensures fit { IfOk result IsPayload }
        ensures err { IfErr result (IsUnfit (attestation customer providers)) }
    {
        let asns = providers.as_slice();
        if asns.is_empty() {
            return Err(PayloadFault::NoProviders);
        }
        if !is_ascending(asns) {
            return Err(PayloadFault::Order);
        }
        if asns.contains(&customer) {
            return Err(PayloadFault::SelfProvider);
        }
        Ok(Payload {
            customer,
            providers,
        })
    }

    /// The customer AS.
    pub fn customer(&self) -> u32
        ensures { result ≡ self.now.customer }
    {
        self.customer
    }

    /// The provider ASes, strictly ascending. 0 may be among them.
    pub fn providers(&self) -> &AsList
        ensures providers { result.now ≡ self.now.providers }
        ensures fit { IsPayload self.now }
    {
        &self.providers
    }
}

// Whether each AS is above the one before it.
fn is_ascending(asns: &[u32]) -> bool
    ensures { IsTrue result ↔ IsStrictlyIncreasing asns.now }
{
    asns.is_sorted_by(|lower, upper| lower < upper)
}
