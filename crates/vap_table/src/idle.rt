//! Changes by hand, and moments, that change nothing.
ghost use Rattle.std.specs.Prelude.{IsTrue};
ghost use Rattle.vap_table.specs.Change.{Alters};
ghost use Rattle.vap_table.specs.declared.change.TableChange.TheVariants.{Filter, Unfilter, Assert, Unassert, At};

use crate::TableChange;
use crate::parts::HeldParts;
use crate::searching::are_held;
use path_model::AsList;

impl HeldParts {
    /// Whether a change by hand, or a moment, leaves all as it is. It takes a look-up, and one for each provider that is asserted. Of other
    /// changes it says no.
    pub(crate) fn is_idle(&self, change: &TableChange) -> bool
        ensures { IsTrue result → Alters self.now change.now self.now }
    {
        match change {
            TableChange::Filter(customer) => self.is_filter(*customer),
            TableChange::Unfilter(customer) => self.is_no_filter(*customer),
            TableChange::Assert(customer, providers) => self.has_asserted(*customer, providers),
            TableChange::Unassert(customer) => self.has_none_asserted(*customer),
            TableChange::Replace(_, _) => false,
            TableChange::Patch(_, _) => false,
            TableChange::Slurm(_, _) => false,
            TableChange::At(moment) => self.is_moment(*moment),
        }
    }

    // Whether the current table is made for this moment.
    fn is_moment(&self, moment: u32) -> bool
        ensures { IsTrue result → Alters self.now (At moment) self.now }
    {
        self.moment == moment
    }

    // Whether the customer is filtered out by hand.
    fn is_filter(&self, customer: u32) -> bool
        ensures { IsTrue result → Alters self.now (Filter customer) self.now }
    {
        let _number = self.filters.len();
        self.filters.contains(customer)
    }

    // Whether it isn't.
    fn is_no_filter(&self, customer: u32) -> bool
        ensures { IsTrue result → Alters self.now (Unfilter customer) self.now }
    {
        let _number = self.filters.len();
        !self.filters.contains(customer)
    }

    // Whether all these providers are asserted by hand of the customer.
    fn has_asserted(&self, customer: u32, providers: &AsList) -> bool
        ensures { IsTrue result → Alters self.now (Assert customer providers.now) self.now }
    {
        match self.assertions.row(customer) {
            None => false,
            Some(row) => are_held(Some(row), providers.as_slice()),
        }
    }

    // Whether nothing is asserted by hand of the customer.
    fn has_none_asserted(&self, customer: u32) -> bool
        ensures { IsTrue result → Alters self.now (Unassert customer) self.now }
    {
        match self.assertions.row(customer) {
            None => true,
            Some(_) => false,
        }
    }
}
