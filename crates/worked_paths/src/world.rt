//! A small world of attestations, in which paths are judged by hand.
//!
//! ```text
//!        3         4          3 and 4 attest that they have no provider
//!      /   \     /   \
//!     2     \   /     5       2 attests 3, 5 attests 4
//!     |       7       |       7 attests 3 and 4
//!     1               6       1 attests 2, 6 attests 5
//!     |
//!     20        8 = 9         20 attests 1; 8 and 9 attest each other
//! ```
//!
//! All other ASes are silent.
ghost use Rattle.std.specs.Prelude.{◌≡◌};
ghost use Rattle.worked_paths.specs.World.{attested};

use path_model::{Authority, Table};

/// The attestations of the small world.
pub struct World;

impl Table for World {
    ghost rows = { λ _. attested };

    fn authority(&self, customer: u32, provider: u32) -> Authority {
        let is_provider = match customer {
            20 => provider == 1,
            1 => provider == 2,
            2 => provider == 3,
            3 => false,
            4 => false,
            5 => provider == 4,
            6 => provider == 5,
            7 => provider == 3 || provider == 4,
            8 => provider == 9,
            9 => provider == 8,
            _ => return Authority::Silent,
        };
        if is_provider {
            Authority::Provides
        } else {
            Authority::Refuses
        }
    }
}
