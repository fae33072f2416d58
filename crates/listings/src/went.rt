//! How many routes went to an AS, and how many came from it.
ghost use Rattle.std.specs.Prelude.{◌≡◌, OnOk};
ghost use Rattle.listings.specs.EachNeighbour.{uncounted, with_case};

use av_base::NoMemory;

/// How many routes went one way, counted case by case.
#[derive(Clone, Copy)]
pub(crate) struct Count {
    pub(crate) routes: u64,
    // the least number of a case that isn't counted yet: they come by rising number
    next: u64,
}

/// How many routes went to an AS, and how many came from it.
#[derive(Clone, Copy)]
pub(crate) struct Went {
    pub(crate) to: Count,
    pub(crate) from: Count,
}

impl Went {
    /// Nothing is counted.
    pub(crate) fn none() -> Went
        ensures { result ≡ uncounted }
    {
        let none = Count { routes: 0, next: 0 };
        Went {
            to: none,
            from: none,
        }
    }
}

impl Count {
    /// Counts the routes of a case, if they aren't counted yet. For 2^64 there is no memory.
    pub(crate) fn add(&mut self, number: u32, users: u32) -> Result<(), NoMemory>
        ensures { OnOk result (self.new ≡ with_case number users self.old) }
    {
        if u64::from(number) < self.next {
            return Ok(());
        }
        let Some(routes) = self.routes.checked_add(u64::from(users)) else {
            return Err(NoMemory);
        };
        self.routes = routes;
        self.next = u64::from(number) + 1;
        Ok(())
    }
}
