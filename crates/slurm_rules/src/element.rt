//! The elements of `aspaFilters` and `aspaAssertions`, one at a time.
ghost use Rattle.std.specs.Prelude.{◌≡◌};
ghost use Rattle.serde_json.specs.Data.{Data, Num};
ghost use Rattle.serde_json.specs.View.{number_view};
ghost use Rattle.slurm_rules.specs.Form.{Assertion, IsFilter, IsAssertion, assertion_view};
ghost use Rattle.slurm_rules.specs.Kept.{CustomerIs};

use crate::draft::DraftAssertion;
use json::Reader;
use json_fields::{
    Entry, Fields, Read, Values, number_after, only_after, pass, read_list, text_after,
};
use serde_json::Number;
use std::alloc::Global;

// What is kept of an element of `aspaFilters` or of `aspaAssertions`.
#[derive(Drop)]
pub(crate) struct CustomerFields {
    // its members are those that are listed for a filter
    filter: bool,
    // those that are listed for an assertion
    assertion: bool,
    comment: bool,
    customer: Option<Number>,
    providers: Option<Vec<Number>>,
}

impl Fields for CustomerFields {
    ghost keeps = { CustomerIs };

    fn new(is_object: bool) -> CustomerFields {
        CustomerFields {
            filter: is_object,
            assertion: is_object,
            comment: true,
            customer: None,
            providers: None,
        }
    }

    fn keep(mut self, alloc: Global, name: &str, reader: &mut Reader, depth: usize) -> Read<Self> {
        self.filter = only_after(self.filter, &["comment", "customerAsn"], name);
        self.assertion = only_after(
            self.assertion,
            &["comment", "customerAsn", "providerAsns"],
            name,
        );
        if name == "providerAsns" {
            self.providers = read_list::<Values<Number>>(alloc, reader, depth)?;
            return Ok(self);
        }
        let kind = pass(reader, depth)?;
        self.comment = text_after(self.comment, "comment", name, kind);
        self.customer = number_after(self.customer, "customerAsn", name, kind);
        Ok(self)
    }
}

// An element of `aspaFilters`, which is the customer that it filters out.
impl Entry<CustomerFields> for Number {
    ghost Seen = { Num };

    ghost see = { number_view };

    ghost stands_for = { IsFilter };

    fn of(kept: CustomerFields) -> Option<Number> {
        if kept.filter && kept.comment {
            kept.customer
        } else {
            None
        }
    }
}

// An element of `aspaAssertions`.
impl Entry<CustomerFields> for DraftAssertion {
    ghost Seen = { Assertion };

    ghost see = { assertion_view };

    ghost stands_for = { IsAssertion };

    fn of(kept: CustomerFields) -> Option<DraftAssertion> {
        if !kept.assertion || !kept.comment {
            return None;
        }
        let customer = kept.customer?;
        let providers = kept.providers?;
        Some(DraftAssertion {
            customer,
            providers,
        })
    }
}
