//! What each part of the table has, and what it has of one customer.
ghost use Rattle.std.specs.Prelude.{◌≡◌};
ghost use Rattle.std.specs.Option.{option_copied};
ghost use Rattle.std.specs.FinMap as map;
ghost use Rattle.path_model.specs.Authority.{has};

use crate::Vaps;
use attestations::Terms;
use path_model::{AsList, Name};

impl Vaps {
    /// The moment for which the table is made, in seconds.
    pub fn moment(&self) -> u32
        ensures { result ≡ self.now.moment }
    {
        self.parts.moment
    }

    /// The named sources with their attestations, in the order in which their names first came.
    pub fn sources(&self) -> &[(Name, Terms)]
        ensures { result.now ≡ self.now.sources }
    {
        self.parts.sources.as_slice()
    }

    /// What the SLURM file asserts of a customer; `None` where it asserts nothing of it. It costs one ordered look-up.
    pub fn slurm_assertion(&self, customer: u32) -> Option<&AsList>
        ensures { option_copied result ≡ map.get self.now.slurm_assertions customer }
    {
        self.parts.slurm_assertions.row(customer)
    }

    /// What is asserted of a customer by hand; `None` where nothing is. It costs one ordered look-up.
    pub fn assertion(&self, customer: u32) -> Option<&AsList>
        ensures { option_copied result ≡ map.get self.now.assertions customer }
    {
        self.parts.assertions.row(customer)
    }

    /// Whether the SLURM file filters a customer out. It costs one ordered look-up.
    pub fn is_slurm_filtered(&self, customer: u32) -> bool
        ensures { result ≡ has self.now.slurm_filters customer }
    {
        self.parts.slurm_filters.contains(customer)
    }

    /// Whether a customer is filtered out by hand. It costs one ordered look-up.
    pub fn is_filtered(&self, customer: u32) -> bool
        ensures { result ≡ has self.now.filters customer }
    {
        self.parts.filters.contains(customer)
    }
}
