//! The cases of a store.
ghost use Rattle.std.specs.Prelude.{◌≡◌};
ghost use Rattle.shared_cases.specs.Cases.{at, IsIndexOf, IsShown as IsCase};
ghost use Rattle.rib_store.specs.Sharing.{AreCasesOf, CountTheirRoutes};

use crate::RibStore;
use av_base::NoMemory;
use hop_index::HopIndex;
use shared_cases::Case;

impl RibStore {
    /// The hops of the cases, each under its case's number.
    pub fn index(&self) -> &HopIndex
        ensures { IsIndexOf self.now.cases result.now }
    {
        self.routing.cases.index()
    }

    /// The stored cases are exactly the distinct pairs of a peer AS and a path of the routes, each under one number with its right
    /// judgement: a law, and the body does nothing.
    pub fn cases_are_those_of_the_routes(&self)
        ensures { AreCasesOf self.now.state self.now.cases }
    {
        let _length = self.routing.routes.len();
        self.routing.cases.are_distinct();
    }

    /// Each stored case has so many users as there are routes of its peer AS and its path: a law, and the body does nothing.
    pub fn cases_count_their_routes(&self)
        ensures { CountTheirRoutes self.now.state.routes self.now.cases }
    {
        let _length = self.routing.routes.len();
        self.routing.cases.are_distinct();
    }

    /// The hops of the cases stand in lists from now on ([`SharedCases::list_hops`](shared_cases::SharedCases::list_hops)), as before a change
    /// of what attests, so that [`RibStore::index`] finds those of an AS without going over all paths. It takes the time and the memory of all
    /// hops, and where they stand there already, none.
    pub fn list_hops(&mut self) -> Result<(), NoMemory>
        ensures { self.new ≡ self.old }
    {
        self.routing.cases.list_hops()
    }

    /// The case under a number; `None` exactly where no route has a case of this number.
    pub fn case(&self, number: usize) -> Option<Case<'_>>
        ensures { IsCase result (at self.now.cases number) }
    {
        self.routing.cases.get(number)
    }
}
