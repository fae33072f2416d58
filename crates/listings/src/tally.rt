//! How many routes have a key by which they are counted.
ghost use Rattle.std.specs.Prelude.{◌≡◌};
ghost use Rattle.listings.specs.TallySteps.{HasRoom, more};

/// How many have a key: a valley, or an AS.
#[derive(Clone, Copy, Debug, PartialEq, Eq)]
pub struct Tally {
    /// Routes: at least one.
    pub routes: u64,
    /// Pairs of a peer AS and a path that these routes have: at least one.
    pub paths: u64,
}

// So many routes more, over one more path.
pub(crate) fn more(tally: Option<Tally>, routes: u64) -> Tally
    requires { HasRoom routes tally }
    ensures { result ≡ more routes tally }
{
    match tally {
        None => Tally { routes, paths: 1 },
        Some(tally) => Tally {
            routes: tally.routes + routes,
            paths: tally.paths + 1,
        },
    }
}
