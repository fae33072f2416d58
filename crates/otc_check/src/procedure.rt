//! The procedure for routes that are received.
ghost use Rattle.otc_check.specs.Leak.{IsLeak};

use path_model::{Leak, Otc, Role};

/// What the attribute tells of a route from a neighbour of this role and AS (RFC 9234, section 5). A neighbour with mutual transit, which
/// the RFC doesn't know, may send any. It takes no memory.
pub fn leak(role: Role, neighbour: u32, otc: Otc) -> Leak
    ensures { IsLeak role neighbour otc result }
{
    match (role, otc) {
        (_, Otc::Absent) => Leak::Clean,
        (_, Otc::Malformed) => Leak::Malformed,
        (Role::Customer, Otc::As(asn)) => Leak::Customer(asn),
        (Role::RsClient, Otc::As(asn)) => Leak::RsClient(asn),
        (Role::Peer, Otc::As(asn)) if asn != neighbour => Leak::Peer(asn),
        (_, Otc::As(_)) => Leak::Clean,
    }
}
