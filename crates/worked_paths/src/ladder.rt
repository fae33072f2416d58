//! Attestations without a list: a long chain of them, and none at all.
ghost use Rattle.std.specs.Prelude.{◌≡◌};

use path_model::{Authority, Table};

/// Each AS below this number attests its successor alone, and the others are silent.
#[derive(Drop)]
pub struct Ladder {
    pub below: u32,
}

impl Table for Ladder {
    ghost use Rattle.worked_paths.specs.Ladder.{ladder};

    ghost rows = { λ t. ladder t.below };

    fn authority(&self, customer: u32, provider: u32) -> Authority {
        if customer >= self.below {
            Authority::Silent
        } else if provider > customer && provider - customer == 1 {
            Authority::Provides
        } else {
            Authority::Refuses
        }
    }
}

/// Each AS below this number attests that it has no provider, and the others are silent.
#[derive(Drop)]
pub struct Alone {
    pub below: u32,
}

impl Table for Alone {
    ghost use Rattle.worked_paths.specs.Ladder.{alone};

    ghost rows = { λ t. alone t.below };

    fn authority(&self, customer: u32, _provider: u32) -> Authority {
        if customer < self.below {
            Authority::Refuses
        } else {
            Authority::Silent
        }
    }
}
