//! The layouts of the bodies of records, by type and subtype (RFC 6396, section 4; RFC 8050).
ghost use Rattle.std.specs.Prelude.{◌≡◌};
ghost use Rattle.mrt_reader.specs.Layouts as words;

/// Which layout a body has. `add_path` says that its entries, or the prefixes of its message, have path identifiers (RFC 8050); `wide`
/// that ASes have four bytes, and else two; `timed` that microseconds stand in front.
#[derive(Clone, Copy, Debug)]
pub(crate) enum Layout {
    /// A peer table.
    PeerIndex,
    /// The routes to a prefix of IPv6, or else of IPv4.
    Rib {
        six: bool,
        add_path: bool,
    },
    /// One route to a prefix of IPv6, or else of IPv4.
    Dump {
        six: bool,
    },
    /// A BGP message.
    Message {
        timed: bool,
        wide: bool,
        add_path: bool,
    },
    /// A state change.
    State {
        timed: bool,
        wide: bool,
    },
    /// Passed over unread.
    Other,
}

// The layout of a type and subtype.
pub(crate) fn layout_of(mrt_type: u16, subtype: u16) -> Layout
    ensures { result ≡ words.layout_of mrt_type subtype }
{
    match mrt_type {
        12 => dump_layout(subtype),
        13 => table_layout(subtype),
        16 => session_layout(false, subtype),
        17 => session_layout(true, subtype),
        _ => Layout::Other,
    }
}

// TABLE_DUMP
fn dump_layout(subtype: u16) -> Layout
    ensures { result ≡ words.dump_layout subtype }
{
    match subtype {
        1 => Layout::Dump { six: false },
        2 => Layout::Dump { six: true },
        _ => Layout::Other,
    }
}

// TABLE_DUMP_V2
fn table_layout(subtype: u16) -> Layout
    ensures { result ≡ words.table_layout subtype }
{
    match subtype {
        1 => Layout::PeerIndex,
        2 => Layout::Rib {
            six: false,
            add_path: false,
        },
        4 => Layout::Rib {
            six: true,
            add_path: false,
        },
        8 => Layout::Rib {
            six: false,
            add_path: true,
        },
        10 => Layout::Rib {
            six: true,
            add_path: true,
        },
        _ => Layout::Other,
    }
}

// BGP4MP, and BGP4MP_ET, which is timed. LOCAL messages (6, 7, 10 and 11), which the dump's writer itself sent, are passed over.
fn session_layout(timed: bool, subtype: u16) -> Layout
    ensures { result ≡ words.session_layout timed subtype }
{
    match subtype {
        0 => Layout::State { timed, wide: false },
        1 => Layout::Message {
            timed,
            wide: false,
            add_path: false,
        },
        4 => Layout::Message {
            timed,
            wide: true,
            add_path: false,
        },
        5 => Layout::State { timed, wide: true },
        8 => Layout::Message {
            timed,
            wide: false,
            add_path: true,
        },
        9 => Layout::Message {
            timed,
            wide: true,
            add_path: true,
        },
        _ => Layout::Other,
    }
}
