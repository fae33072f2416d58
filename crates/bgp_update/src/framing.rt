//! The header of a message.
ghost use Rattle.std.specs.Prelude.{◌≡◌, ◌++◌, List, ℕ, IfSome, IfNone};
ghost use Rattle.bgp_update.specs.Frames.{marker, IsFramed, HasNoFrame};

const MARKER: [u8; 16] = [0xFF; 16];

// The type of a message and the bytes behind it, where its header is in form.
pub(crate) fn unframed(message: &[u8]) -> Option<(u8, &[u8])>
    ensures some { IfSome result (λ x. IsFramed message.now x.0 x.1.now) }
    ensures none { IfNone result (HasNoFrame message.now) }
{
    match after_marker(message)? {
        [high, low, kind, rest @ ..] => {
            if usize::from(u16::from_be_bytes([*high, *low])) != message.len() {
                return None;
            }
            Some((*kind, rest))
        }
        _ => None,
    }
}

/// The bytes behind the marker of sixteen bytes of ones, with which each message begins (RFC 4271, section 4.1); `None` where it isn't
/// there.
pub fn after_marker(message: &[u8]) -> Option<&[u8]>
    ensures some { IfSome result (λ rest. message.now ≡ marker ++ rest.now) }
    ensures none { IfNone result ((rest : List ℕ) → message.now ≡ marker ++ rest → ⊥) }
{
    if !message.starts_with(&MARKER) {
        return None;
    }
    let (_, rest) = message.split_at(16);
    Some(rest)
}
