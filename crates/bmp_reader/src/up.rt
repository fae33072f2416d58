//! The parts of a Peer Up.
ghost use Rattle.std.specs.Prelude.{◌≡◌, option_map};
ghost use Rattle.bmp_reader.specs.Left.{up_of};
ghost use Rattle.bmp_reader.specs.Readers.{up_at};

use crate::header::{PeerHeader, take_header};
use crate::opening::{OpenParts, take_open};
use bgp_attrs::take;

/// The parts of a Peer Up: the OPEN that the router sent to the peer, and the one that it received from the peer.
#[derive(Clone, Copy, Debug)]
pub(crate) struct UpParts<'a> {
    pub(crate) header: PeerHeader,
    pub(crate) sent: OpenParts<'a>,
    pub(crate) received: OpenParts<'a>,
}

// The parts of a body, where it is in form. The local address and the ports aren't read, nor what is behind the OPENs.
#[tactic(auto, unfolding(crate::specs::Readers::up_at))]
pub(crate) fn up_parts(body: &[u8]) -> Option<UpParts<'_>>
    ensures { option_map up_of result ≡ up_at body.now }
{
    let (header, rest) = take_header(body)?;
    let (_, rest) = take(rest, 20)?;
    let (sent, rest) = take_open(rest)?;
    let (received, _) = take_open(rest)?;
    Some(UpParts {
        header,
        sent,
        received,
    })
}
