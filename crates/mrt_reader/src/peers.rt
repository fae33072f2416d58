//! Peer tables.
ghost use Rattle.std.specs.Prelude.{◌≡◌, slice_get, length, IfOk, IsTrue, ◌↔◌, []};

use av_base::NoMemory;
use path_model::Peer;
use std::marker::Model;

/// The peers of a dump, which its RIB records name by their places.
#[derive(Debug, Drop)]
pub struct PeerTable {
    peers: Vec<Peer>,
}

impl Model for PeerTable {
    ghost use Rattle.std.specs.Prelude.{List};
    ghost use Rattle.path_model.specs.declared.peer.Peer.{Peer as APeer};

    ghost Value = { List APeer };

    ghost view = { λ t. t.peers.items };
}

impl PeerTable {
    // The table of these peers.
    pub(crate) fn from_vec(peers: Vec<Peer>) -> PeerTable
        ensures { result ≡ peers.items }
    {
        PeerTable { peers }
    }

    /// The number of peers.
    pub fn len(&self) -> usize
        ensures { result ≡ length self.now }
    {
        self.peers.len()
    }

    /// Whether there are none.
    pub fn is_empty(&self) -> bool
        ensures { IsTrue result ↔ (self.now ≡ []) }
    {
        self.peers.is_empty()
    }

    /// The peer at a place from 0, or `None` past the end.
    pub fn get(&self, i: u16) -> Option<Peer>
        ensures { result ≡ slice_get self.now i }
    {
        self.peers.get(usize::from(i)).copied()
    }

    /// All peers in order.
    pub fn as_slice(&self) -> &[Peer]
        ensures { result.now ≡ self.now }
    {
        self.peers.as_slice()
    }

    /// The same table once more.
    pub fn copy(&self) -> Result<PeerTable, NoMemory>
        ensures { IfOk result (λ table. table ≡ self.now) }
    {
        Ok(PeerTable {
            peers: self.peers.clone()?,
        })
    }
}
