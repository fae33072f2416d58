//! Peers as text.
ghost use Rattle.std.specs.Prelude.{◌≡◌, ◌++◌, OnOk, OnErr};
ghost use Rattle.av_text.specs.PeerText.{peer_text};

use crate::address_text::put_marked;
use av_base::NoMemory;
use path_model::Peer;

/// Appends a peer: its address, one space and its AS, nine to 50 bytes.
pub fn put_peer(out: &mut Vec<u8>, peer: &Peer) -> Result<(), NoMemory>
    ensures ok { OnOk result (out.new.items ≡ out.old.items ++ peer_text peer.now) }
    ensures err { OnErr result (out.new.items ≡ out.old.items) }
{
    put_marked(out, &peer.addr, b' ', peer.asn)
}
