//! The prefixes that a look-up of what covers a prefix goes through.
ghost use Rattle.std.specs.Prelude.{◌<◌, ◌≤◌, IfNone, IfSome};
ghost use Rattle.origin_validation.specs.Fronts.{HasNoCommon, HasNoFront, IsCommonOf, IsLongestCommon, IsNextFront, HasNoCommonOf};

use origin_model::{VrpSet, covers};
use path_model::Prefix;

// A shorter prefix that covers this one, such that no payload's prefix between the two in length does; `None` where no shorter one of a
// payload does.
pub(crate) fn next_front(set: &VrpSet, front: &Prefix) -> Option<Prefix>
    ensures some { IfSome result (IsNextFront set.now front.now) }
    ensures none { IfNone result (HasNoFront set.now front.now) }
{
    // whatever of a payload covers this prefix covers the one before it, too
    let before = set.prefix_before(front)?;
    let end = front.len().min(before.len() + 1);
    longest_common(&before, front, end)
}

// The longest prefix of fewer than `end` bits that covers both of these.
fn longest_common(one: &Prefix, other: &Prefix, end: u8) -> Option<Prefix>
    requires { end ≤ other.now.len }
    ensures some { IfSome result (IsLongestCommon one.now other.now end) }
    ensures none { IfNone result (HasNoCommon one.now other.now end) }
{
    let mut len = end;
    while len > 0 {
        len -= 1;
        if let Some(common) = common_of(one, other, len) {
            return Some(common);
        }
    }
    None
}

// The prefix of so many bits that covers both of these, if there is one.
fn common_of(one: &Prefix, other: &Prefix, len: u8) -> Option<Prefix>
    requires { len ≤ other.now.len }
    ensures some { IfSome result (IsCommonOf one.now other.now len) }
    ensures none { IfNone result (HasNoCommonOf one.now other.now len) }
{
    let start = Prefix::new(other.addr(), len)?;
    if !covers(&start, one) {
        return None;
    }
    Some(start)
}
