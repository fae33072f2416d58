//! Which ASes with a role of their own have routes.
ghost use Rattle.std.specs.Prelude.{◌≡◌, ◌&&◌, ◌||◌, ℕ, nat_eq, is_some, IfOk, OnOk};
ghost use Rattle.std.specs.FinMap as fin;
ghost use Rattle.path_model.specs.Authority.{has};
ghost use Rattle.rib_store.specs.Rows.{peers_left};
ghost use Rattle.listings.specs.EachPeer.{is_seen};

use av_base::NoMemory;
use path_model::Roles;
use rib_store::RibPeers;
use std::alloc::Global;
use std::collections::BTreeSet;

/// The ASes of these peers that have a role of their own. It takes the memory of these ASes.
pub(crate) fn seen_ases(
    alloc: Global,
    peers: RibPeers<'_>,
    roles: &Roles,
) -> Result<BTreeSet<u32>, NoMemory>
    ensures { IfOk result (λ seen. (a : ℕ) → has seen.keys a
        ≡ (is_some (fin.get roles.now.set a) && is_seen (peers_left peers.entry) a)) }
{
    let mut seen = BTreeSet::new(alloc);
    for (peer, _rows) in peers {
        note(&mut seen, peer.asn, roles)?;
    }
    Ok(seen)
}

// Notes an AS, where it has a role of its own.
fn note(seen: &mut BTreeSet<u32>, asn: u32, roles: &Roles) -> Result<(), NoMemory>
    ensures { OnOk result ((a : ℕ) → has seen.new.keys a
        ≡ ((is_some (fin.get roles.now.set asn) && nat_eq asn a) || has seen.old.keys a)) }
{
    if !roles.has_own(asn) {
        return Ok(());
    }
    seen.insert(asn)?;
    Ok(())
}
