//! Draws from the generator.
ghost use Rattle.std.specs.Prelude.{◌≡◌, ◌<◌, ◌≤◌, ◌+◌, OnOk};
ghost use Rattle.stated_workload.specs.Draws.{Draws, DrawsAs, Adds};

use av_base::NoMemory;
use path_model::AsList;
use rand_core::utils::NextWord;
use rand_pcg::Lcg64Xsh32;

/// The next word modulo `m`.
pub(crate) fn draw(rng: &mut Lcg64Xsh32, m: u32) -> u32
    requires { 0 < m }
    ensures drawn { Draws m rng.old result rng.new }
    ensures bound { result < m }
{
    rng.next_word() % m
}

/// An AS.
pub(crate) fn draw_as(rng: &mut Lcg64Xsh32) -> u32
    ensures { DrawsAs rng.old result rng.new }
{
    1 + draw(rng, 2000)
}

/// Adds so many ASes to a list.
#[tactic(auto, using(crate::proofs::DrawsLemmas::draw_steps))]
pub(crate) fn draw_ases(rng: &mut Lcg64Xsh32, count: u32, list: &mut AsList) -> Result<(), NoMemory>
    ensures { OnOk result (Adds (λ _. DrawsAs) count rng.old list.old list.new rng.new) }
{
    for _turn in 0..count {
        list.push(draw_as(rng))?;
    }
    Ok(())
}
