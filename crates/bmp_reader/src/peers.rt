//! The peers whose prefixes have path identifiers.
ghost use Rattle.std.specs.Prelude.{◌≡◌, IfOk, OnOk, if◌then◌else◌};
ghost use Rattle.std.specs.FinSet as set;

use av_base::NoMemory;
use path_model::Peer;
use std::alloc::Global;
use std::collections::BTreeSet;
use std::marker::Model;

/// The peers of one stream whose last noted Peer Up said that prefixes have path identifiers.
#[derive(Debug, Drop)]
pub struct PathPeers {
    peers: BTreeSet<Peer>,
}

impl Model for PathPeers {
    ghost use Rattle.std.specs.FinSet as set;
    ghost use Rattle.path_model.specs.Codes.{coded_peer};
    ghost use Rattle.path_model.specs.Key.{peer_cmp};

    ghost Value = { set.FinSet peer_cmp };

    ghost coded = { set.code coded_peer };

    ghost view = { λ p. set.from_list p.peers.keys };
}

impl PathPeers {
    /// None. It takes no memory.
    pub fn new(alloc: Global) -> PathPeers
        ensures { result ≡ set.empty }
    {
        PathPeers {
            peers: BTreeSet::new(alloc),
        }
    }

    /// Notes what the last Peer Up of a peer said.
    pub fn note(mut self, peer: Peer, add_path: bool) -> Result<PathPeers, NoMemory>
        ensures { IfOk result (λ peers. peers
            ≡ (if add_path then set.insert self peer else set.remove self peer)) }
    {
        if add_path {
            self.insert(peer)?;
            return Ok(self);
        }
        self.remove(peer);
        Ok(self)
    }

    fn insert(&mut self, peer: Peer) -> Result<(), NoMemory>
        ensures { OnOk result (self.new ≡ set.insert self.old peer) }
    {
        self.peers.insert(peer)?;
        Ok(())
    }

    fn remove(&mut self, peer: Peer)
        ensures { self.new ≡ set.remove self.old peer }
    {
        self.peers.remove(&peer);
    }

    /// Whether what was noted last of a peer was that its prefixes have path identifiers.
    pub fn has(&self, peer: &Peer) -> bool
        ensures { result ≡ set.contains self.now peer.now }
    {
        self.peers.contains(peer)
    }
}
