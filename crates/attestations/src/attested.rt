//! What is lent of a customer's attestations.
ghost use Rattle.std.specs.Prelude.{◌≡◌, ◌↔◌, [], ◌∷◌, IsTrue};
ghost use Rattle.attestations.specs.Attested.{listed};
ghost use Rattle.attestations.specs.Terms.{lasting};

use crate::Term;
use path_model::AsList;

/// All attestations of one customer, each once. A row that never ends is lent as it is held; so one attestation may be lent as either.
#[derive(Clone, Copy, Debug)]
pub enum Attested<'a> {
    /// One attestation of these providers, which never ends.
    Row(&'a AsList),
    /// These attestations, in their order.
    Terms(&'a [Term]),
}

impl<'a> Attested<'a> {
    /// Whether both are the same attestations. It costs what there are.
    pub fn is_same(self, other: Attested<'_>) -> bool
        ensures { IsTrue result ↔ (listed self.entry ≡ listed other.entry) }
    {
        match (self, other) {
            (Attested::Row(one), Attested::Row(other)) => one.as_slice() == other.as_slice(),
            (Attested::Row(row), Attested::Terms(terms)) => is_row(terms, row),
            (Attested::Terms(terms), Attested::Row(row)) => is_row(terms, row),
            (Attested::Terms(one), Attested::Terms(other)) => one == other,
        }
    }
}

// Whether these are one attestation of this row that never ends.
fn is_row(terms: &[Term], row: &AsList) -> bool
    ensures { IsTrue result ↔ (terms.now ≡ lasting row.now ∷ []) }
{
    match terms {
        [term] => term.until.is_none() && term.providers.as_slice() == row.as_slice(),
        _ => false,
    }
}
