//! The names of an object's members.
ghost use Rattle.std.specs.Prelude.{◌≡◌, map};
ghost use Rattle.json_fields.specs.Object.{is_among};

// Whether a name is one of these.
pub(crate) fn is_among(names: &[&str], name: &str) -> bool
    ensures { result ≡ is_among (map (λ name. name.now) names.now) name.now }
{
    names.iter().any(|other| *other == name)
}
