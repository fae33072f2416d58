//! Feeds.
ghost use Rattle.std.specs.Prelude.{◌≡◌, List, ℕ, None, is_some};
ghost use Rattle.rtr_client.specs.Holding.{feed_in};

use path_model::Name;
use rtr_pdu::Framer;
use rtr_session::Session;
use std::alloc::Global;
use std::collections::BTreeMap;

/// A feed whose session goes on.
#[derive(Drop)]
pub(crate) struct OpenFeed {
    /// What was received and belongs to no PDU that was taken.
    pub(crate) framer: Framer,
    pub(crate) session: Session,
    /// How many PDUs were taken.
    pub(crate) taken: u64,
    /// The number of its connection.
    pub(crate) link: u32,
}

/// The feeds of a script, by name.
#[derive(Drop)]
pub struct Feeds {
    // none where the session is over
    pub(crate) held: BTreeMap<Name, Option<OpenFeed>>,
}

impl Feeds {
    /// No name is a feed's. It takes no memory.
    pub fn new(alloc: Global) -> Feeds
        ensures { (name : List ℕ) → feed_in result name ≡ None }
    {
        Feeds {
            held: BTreeMap::new(alloc),
        }
    }

    /// Whether the name is a feed's.
    pub fn has(&self, name: &Name) -> bool
        ensures { result ≡ is_some (feed_in self.now name.now) }
    {
        self.held.contains_key(name)
    }
}
