//! The refusal of an attribute field.
use std::error::Error;
use std::fmt;

/// An attribute field is out of form: an attribute is cut, AS_PATH is malformed, or in a message MP_REACH_NLRI or MP_UNREACH_NLRI
/// is malformed or repeated.
#[derive(Clone, Copy, Debug, PartialEq, Eq)]
pub struct Attributes;

impl fmt::Display for Attributes {
    fn fmt<W: fmt::Write>(&self, f: &mut fmt::Formatter<W>) -> fmt::Result {
        write!(f, "path attributes are out of form")
    }
}

impl Error for Attributes {}
