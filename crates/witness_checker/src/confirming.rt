//! Whether a witness shows the verdict that it is given for.
ghost use Rattle.std.specs.Prelude.{◌↔◌, IsTrue};
ghost use Rattle.path_model.specs.RightVerdict.{EndsAt, IsInvalidAtOnce};
ghost use Rattle.path_model.specs.Witness.{Facts, Shows};
ghost use Rattle.witness_checker.specs.Fitting.{as_labelling, IsUnsettled};

use crate::fitting::{Labelling, fits};
use crate::hops::block;
use crate::silence::Silence;
use path_model::{Direction, Role, Table, Trail, Verdict, Witness};

/// Whether the facts of this verdict and witness hold, of a path that came from a neighbour of this role.
/// Other witnesses than the printed one are confirmed too, if what they show is so.
pub fn confirm<T: Table>(
    table: &T,
    role: Role,
    neighbour: u32,
    trail: &Trail,
    verdict: Verdict,
    witness: Witness,
) -> bool
    ensures { IsTrue result
        ↔ Facts (T.rows table.now) role neighbour trail.now verdict witness }
{
    verdict == witness.verdict() && shows(table, role, neighbour, trail, witness)
}

// Whether what a witness shows is so.
fn shows<T: Table>(table: &T, role: Role, neighbour: u32, trail: &Trail, witness: Witness) -> bool
    ensures { IsTrue result ↔ Shows (T.rows table.now) role neighbour trail.now witness }
{
    let chain = trail.chain().as_slice();
    let direction = role.direction();
    match witness {
        Witness::Empty => chain.is_empty(),
        Witness::Set => trail.is_set(),
        Witness::Neighbour => {
            !chain.is_empty() && role.tests_neighbour() && !ends_at(chain, neighbour)
        }
        Witness::Valid {
            climbs,
            free,
            descents,
        } => {
            let labelling = Labelling {
                climbs,
                free,
                descents,
            };
            hops_decide(role, neighbour, trail)
                && fits(table, direction, chain, Silence::Nothing, labelling)
        }
        Witness::Blocked { first, last } => {
            hops_decide(role, neighbour, trail)
                && block(table, direction, chain, Silence::Consent, first, last)
        }
        Witness::Unsettled {
            first,
            last,
            climbs,
            free,
            descents,
        } => {
            let labelling = Labelling {
                climbs,
                free,
                descents,
            };
            hops_decide(role, neighbour, trail)
                && is_unsettled(table, direction, chain, first, last, labelling)
        }
    }
}

// Whether hops block by what is attested, and a labelling fits where silence counts as consent.
fn is_unsettled<T: Table>(
    table: &T,
    direction: Direction,
    chain: &[u32],
    first: u32,
    last: Option<u32>,
    labelling: Labelling,
) -> bool
    ensures { IsTrue result
        ↔ IsUnsettled (T.rows table.now) direction chain.now first last (as_labelling labelling) }
{
    block(table, direction, chain, Silence::Nothing, first, last)
        && fits(table, direction, chain, Silence::Consent, labelling)
}

// Whether the path isn't invalid at once, so that its hops decide.
fn hops_decide(role: Role, neighbour: u32, trail: &Trail) -> bool
    ensures { IsTrue result ↔ (IsInvalidAtOnce role neighbour trail.now → ⊥) }
{
    let chain = trail.chain().as_slice();
    !chain.is_empty() && !trail.is_set() && (!role.tests_neighbour() || ends_at(chain, neighbour))
}

// Whether the chain's last AS is the neighbour.
fn ends_at(chain: &[u32], neighbour: u32) -> bool
    ensures { IsTrue result ↔ EndsAt chain.now neighbour }
{
    match chain.last() {
        None => false,
        Some(last) => *last == neighbour,
    }
}
