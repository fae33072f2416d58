//! The kinds of messages.
ghost use Rattle.std.specs.Prelude.{◌≡◌};
ghost use Rattle.bmp_reader.specs.Kinds as words;

/// Which body a message has.
#[derive(Clone, Copy, Debug)]
pub(crate) enum Kind {
    /// A BGP message of a peer.
    RouteMonitoring,
    /// The end of a session.
    PeerDown,
    /// The OPENs of a session that came up.
    PeerUp,
    /// Passed over unread.
    Other,
}

// The kind of a type.
pub(crate) fn kind_of(kind: u8) -> Kind
    ensures { result ≡ words.kind_of kind }
{
    match kind {
        0 => Kind::RouteMonitoring,
        2 => Kind::PeerDown,
        3 => Kind::PeerUp,
        _ => Kind::Other,
    }
}
