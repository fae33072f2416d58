//! Records with path identifiers (RFC 8050): the changes that they make.
use crate::comparing::Wanted;
use crate::records::{Case, NET, NET6, ONE, RIB, ROUTE, TABLE, WITHDRAWN, count_read};
use Wanted::{Announce, Remove};
use av_base::NoMemory;

// Two routes to 198.51.100.0/24 from the first peer, with the identifiers 1 and 2.
const PATHS: &str = "00000000 000D 0008 0000003C  00000000 18 C63364 0002
    0000 00000000 00000001 000D 40020A 0202 0000FBF5 0000FBF4  0000 00000000 00000002 000D 40020A 0202 0000FBF5 0000FBF4";

// One to 2001:db8::/32, with the highest identifier.
const PATHS6: &str = "00000000 000D 000A 00000024  00000000 20 20010DB8 0001
    0000 00000000 FFFFFFFF 000D 40020A 0202 0000FBF5 0000FBF4";

// A record without entries.
const NO_PATHS: &str = "00000000 000D 0008 0000000A  00000000 18 C63364 0000";

// The first peer withdraws 198.51.100.0/24 with the identifier 1,
const GONE: &str = "00000000 0010 0009 00000033  0000FBF5 0000FBFF 0000 0001 C0000201 C00002FE
    FFFFFFFFFFFFFFFFFFFFFFFFFFFFFFFF 001F 02 0008 00000001 18C63364 0000";

// and in one message withdraws it with 1 and announces it with 2;
const MOVED: &str = "00000000 0010 0009 00000048  0000FBF5 0000FBFF 0000 0001 C0000201 C00002FE
    FFFFFFFFFFFFFFFFFFFFFFFFFFFFFFFF 0034 02 0008 00000001 18C63364 000D 40020A 0202 0000FBF5 0000FBF4 00000002 18C63364";

// in a session with ASes of two bytes it announces it with 0;
const NARROW: &str = "00000000 0010 0008 00000038  FBF5 FBFF 0000 0001 C0000201 C00002FE
    FFFFFFFFFFFFFFFFFFFFFFFFFFFFFFFF 0028 02 0000 0009 400206 0202 FBF5 FBF4 00000000 18C63364";

// it announces 2001:db8::/32 with 7, in a record with microseconds, and withdraws it.
const SIX: &str =
    "00000000 0011 0009 0000005D  00000001  0000FBF5 0000FBFF 0000 0001 C0000201 C00002FE
    FFFFFFFFFFFFFFFFFFFFFFFFFFFFFFFF 0045 02 0000 002E  40020A 0202 0000FBF5 0000FBF4
    800E1E 0002 01 10 20010DB8000000000000000000000001 00 00000007 20 20010DB8";

const SIX_GONE: &str =
    "00000000 0011 0009 0000003E  00000001  0000FBF5 0000FBFF 0000 0001 C0000201 C00002FE
    FFFFFFFFFFFFFFFFFFFFFFFFFFFFFFFF 0026 02 0000 000F  800F0C 0002 01 00000007 20 20010DB8";

const CHAIN: [u32; 2] = [64500, 64501];

const DUMPS: [Case; 5] = [
    (
        &[TABLE, PATHS, PATHS6, NO_PATHS],
        &[
            Announce(ONE, NET, 24, Some(1), &CHAIN),
            Announce(ONE, NET, 24, Some(2), &CHAIN),
            Announce(ONE, NET6, 32, Some(u32::MAX), &CHAIN),
        ],
    ),
    // No identifier and the identifier 0 are told apart.
    (
        &[TABLE, RIB, NARROW],
        &[ROUTE, Announce(ONE, NET, 24, Some(0), &CHAIN)],
    ),
    (
        &[GONE, MOVED],
        &[
            Remove(ONE, NET, 24, Some(1)),
            Remove(ONE, NET, 24, Some(1)),
            Announce(ONE, NET, 24, Some(2), &CHAIN),
        ],
    ),
    (
        &[SIX, SIX_GONE],
        &[
            Announce(ONE, NET6, 32, Some(7), &CHAIN),
            Remove(ONE, NET6, 32, Some(7)),
        ],
    ),
    (
        &[WITHDRAWN, GONE],
        &[Remove(ONE, NET, 24, None), Remove(ONE, NET, 24, Some(1))],
    ),
];

#[test]
fn records_with_path_identifiers(rt: HostRuntime) -> Result<(), NoMemory> {
    assert_eq!(rt; count_read(rt.alloc(), &DUMPS)?, 5);
    Ok(())
}
