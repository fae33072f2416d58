//! What a value is, for who passes it over.
ghost use Rattle.std.specs.Prelude.{◌≡◌, option_map};
ghost use Rattle.serde_json.specs.View.{number_view};
ghost use Rattle.json_fields.specs.Tokens.{kind_number, kind_text, is_array};

use serde_json::Number;

/// What a value is. Only of a number and a text is kept what it holds.
#[derive(Clone, Copy)]
pub enum Kind<'a> {
    /// A number.
    Number(Number),
    /// A string, with its escapes resolved.
    Text(&'a str),
    /// An array.
    Array,
    /// An object.
    Object,
    /// A truth value or null.
    Other,
}

impl<'a> Kind<'a> {
    /// The number that it is, if it is one.
    pub fn number(self) -> Option<Number>
        ensures { option_map number_view result ≡ kind_number self.entry }
    {
        match self {
            Kind::Number(number) => Some(number),
            _ => None,
        }
    }

    /// The text that it is, if it is a string.
    pub fn text(self) -> Option<&'a str>
        ensures { option_map (λ text. text.now) result ≡ kind_text self.entry }
    {
        match self {
            Kind::Text(text) => Some(text),
            _ => None,
        }
    }

    /// Whether it is an array.
    pub fn is_array(self) -> bool
        ensures { result ≡ is_array self.entry }
    {
        matches!(self, Kind::Array)
    }
}
