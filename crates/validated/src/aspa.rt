//! The elements of `aspas`, one at a time.
ghost use Rattle.std.specs.Prelude.{◌≡◌, codes};
ghost use Rattle.serde_json.specs.Data.{Data};
ghost use Rattle.json_fields.specs.Tokens.{Holds, Keeps};
ghost use Rattle.serde_json.specs.Find.{get};
ghost use Rattle.validated.specs.Form.{Aspa, IsAsNumeral, IsAspa, aspa_view, numeral_view};
ghost use Rattle.validated.specs.Kept.{AspaIs, IsCustomer};

use crate::draft::{DraftAspa, Numeral};
use crate::numeral::{AsNumeral, MomentNumeral};
use json::Reader;
use json_fields::{Entry, Fields, Read, Values, pass, read_list, value_after};
use std::alloc::Global;

// What is kept of an element. A member is none where it is of another kind, and the array of providers also where it is absent.
#[derive(Drop)]
pub(crate) struct AspaFields {
    asid: Option<Option<Numeral>>,
    customer: Option<Option<Numeral>>,
    providers: Option<Vec<Numeral>>,
    expires: Option<Option<Numeral>>,
}

impl Fields for AspaFields {
    ghost keeps = { AspaIs };

    fn new(_is_object: bool) -> AspaFields {
        AspaFields {
            asid: Some(None),
            customer: Some(None),
            providers: None,
            expires: Some(None),
        }
    }

    fn keep(mut self, alloc: Global, name: &str, reader: &mut Reader, depth: usize) -> Read<Self> {
        if name == "providers" {
            self.providers = read_list::<Values<AsNumeral>>(alloc, reader, depth)?;
            return Ok(self);
        }
        let kind = pass(reader, depth)?;
        self.asid = value_after::<AsNumeral>(self.asid, "customer_asid", name, kind);
        self.customer = value_after::<AsNumeral>(self.customer, "customer", name, kind);
        self.expires = value_after::<MomentNumeral>(self.expires, "expires", name, kind);
        Ok(self)
    }
}

// An element of `aspas`.
impl Entry<AspaFields> for DraftAspa {
    ghost Seen = { Aspa };

    ghost see = { aspa_view };

    ghost stands_for = { IsAspa };

    fn of(kept: AspaFields) -> Option<DraftAspa> {
        let customer = named(kept.asid, kept.customer)?;
        let expires = kept.expires?;
        let providers = kept.providers?;
        Some(DraftAspa {
            customer,
            providers,
            expires,
        })
    }
}

// The customer, by `customer_asid`, or by `customer` where that isn't there.
fn named(asid: Option<Option<Numeral>>, other: Option<Option<Numeral>>) -> Option<Numeral>
    ensures { (d : Data) → Keeps numeral_view IsAsNumeral asid (get (codes "customer_asid") d)
        → Keeps numeral_view IsAsNumeral other (get (codes "customer") d)
        → Holds numeral_view result (IsCustomer d) }
{
    let asid = asid?;
    if let Some(customer) = asid {
        return Some(customer);
    }
    let customer = other??;
    Some(customer)
}
