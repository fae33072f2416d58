//! The types of PDUs, their numbers and their lengths.
ghost use Rattle.std.specs.Prelude.{◌≡◌, ◌≢◌, ◌↔◌, IsTrue, IfSome, IfNone};
ghost use Rattle.rtr_pdu.specs.declared.kind.Kind.{Kind as KindOf};
ghost use Rattle.rtr_pdu.specs.Pdus.{code_of, FitsLength};

/// A type of PDU.
#[derive(Clone, Copy, Debug, PartialEq, Eq)]
pub(crate) enum Kind {
    SerialNotify,
    SerialQuery,
    ResetQuery,
    CacheResponse,
    Ipv4Prefix,
    Ipv6Prefix,
    EndOfData,
    CacheReset,
    RouterKey,
    ErrorReport,
    Aspa,
}

impl Kind {
    /// The type with this number; `None` exactly where there is none.
    pub(crate) fn named(code: u8) -> Option<Kind>
        ensures some { IfSome result (λ kind. code_of kind ≡ code) }
        ensures none { IfNone result ((kind : KindOf) → code_of kind ≢ code) }
    {
        match code {
            0 => Some(Kind::SerialNotify),
            1 => Some(Kind::SerialQuery),
            2 => Some(Kind::ResetQuery),
            3 => Some(Kind::CacheResponse),
            4 => Some(Kind::Ipv4Prefix),
            6 => Some(Kind::Ipv6Prefix),
            7 => Some(Kind::EndOfData),
            8 => Some(Kind::CacheReset),
            9 => Some(Kind::RouterKey),
            10 => Some(Kind::ErrorReport),
            11 => Some(Kind::Aspa),
            _ => None,
        }
    }

    /// Whether a PDU of this type may have this length, as far as its header tells.
    pub(crate) fn fits(self, length: u32) -> bool
        ensures { IsTrue result ↔ FitsLength self length }
    {
        match self {
            Kind::SerialNotify => length == 12,
            Kind::SerialQuery => length == 12,
            Kind::ResetQuery => length == 8,
            Kind::CacheResponse => length == 8,
            Kind::Ipv4Prefix => length == 20,
            Kind::Ipv6Prefix => length == 32,
            Kind::EndOfData => length == 24,
            Kind::CacheReset => length == 8,
            Kind::RouterKey => length >= 32,
            Kind::ErrorReport => length >= 16,
            Kind::Aspa => fits_providers(length),
        }
    }
}

// Whether some whole number of providers has this length.
fn fits_providers(length: u32) -> bool
    ensures { IsTrue result ↔ FitsLength Kind.Aspa length }
{
    if length < 12 {
        return false;
    }
    (length - 12) % 4 == 0
}
