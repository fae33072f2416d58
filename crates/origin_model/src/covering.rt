//! Prefixes that cover others.
ghost use Rattle.std.specs.Prelude.{◌↔◌, IsTrue};
ghost use Rattle.origin_model.specs.Covering.{Covers};

use path_model::Prefix;

/// Whether a prefix covers another one (RFC 6811, section 2): both are of one family, and the second begins with all bits of the first. So
/// each prefix covers itself.
pub fn covers(prefix: &Prefix, other: &Prefix) -> bool
    ensures { IsTrue result ↔ Covers prefix.now other.now }
{
    if prefix.len() > other.len() {
        return false;
    }
    match Prefix::new(other.addr(), prefix.len()) {
        Some(front) => front == *prefix,
        None => false,
    }
}
