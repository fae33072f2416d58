//! Roles as text.
ghost use Rattle.std.specs.Prelude.{◌≡◌, ◌≢◌, Some, IfSome, IfNone};
ghost use Rattle.path_model.specs.declared.role.Role.{Role};
ghost use Rattle.av_text.specs.RoleText.{role_text};

use path_model::Role;

/// Reads a whole text as a role: one of the five names of RFC 9234 in lower case, or `mutual`, this
/// project's own sixth. Takes no memory.
pub fn read_role(text: &[u8]) -> Option<Role>
    ensures spelled { IfSome result (λ role. text.now ≡ role_text role) }
    ensures none { IfNone result ((role : Role) → text.now ≢ role_text role) }

    // What was put is read again as itself.
    ensures again { (role : Role) → text.now ≡ role_text role → result ≡ Some role }
{
    match text {
        b"provider" => Some(Role::Provider),
        b"customer" => Some(Role::Customer),
        b"peer" => Some(Role::Peer),
        b"rs" => Some(Role::Rs),
        b"rs-client" => Some(Role::RsClient),
        b"mutual" => Some(Role::Mutual),
        _ => None,
    }
}
