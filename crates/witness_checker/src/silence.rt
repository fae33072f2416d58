//! What silence counts as.
ghost use Rattle.std.specs.Prelude.{◌↔◌, IsTrue};
ghost use Rattle.witness_checker.specs.Silence.{GoesOn, Stops};

use path_model::Authority;

/// What an AS's silence counts as.
#[derive(Clone, Copy)]
pub(crate) enum Silence {
    /// As no attestation: so far a hop neither climbs nor descends there.
    Nothing,
    /// As an attestation: a hop climbs or descends there unless it is refused.
    Consent,
}

impl Silence {
    /// Whether a hop of which this is said climbs, or descends.
    pub(crate) fn goes_on(self, authority: Authority) -> bool
        ensures { IsTrue result ↔ GoesOn self authority }
    {
        match self {
            Silence::Nothing => authority == Authority::Provides,
            Silence::Consent => authority != Authority::Refuses,
        }
    }

    /// Whether it doesn't.
    pub(crate) fn stops(self, authority: Authority) -> bool
        ensures { IsTrue result ↔ Stops self authority }
    {
        !self.goes_on(authority)
    }
}
