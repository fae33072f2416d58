//! What is wanted of a JSON file (RFC 8259), read from its tokens: no tree is built, and what is passed over is dropped at once.
//!
//! The layer above says of each kind of object what it keeps ([`Fields`]) and of each kind of array what its elements stand for
//! ([`Element`], mostly [`Objects`] or [`Values`]), and uses one contract: **[`read_file`] answers what is kept of the tree that the file
//! is**, or that it is no JSON. The definitions speak of the tree that `serde_json` gives: of members of one name the last counts, and
//! arrays and objects nest at most 127 deep. What is kept of an object follows it member by member: the functions of `fields` and `values`
//! take what was kept to what is kept after one more member.
//!
//! Begin with `specs/Tree.antt` and `specs/Object.antt`; how tokens are taken is in `specs/Tokens.antt`.
#![tactic(auto)]

mod fault;
mod fields;
mod file;
mod kind;
mod lists;
mod names;
mod numeral;
mod objects;
mod passing;
mod values;

pub use fault::{JsonFault, Read};
pub use fields::{
    Fields, array_after, number_after, number_if_there_after, only_after, read_object, text_after,
    text_if_there_after,
};
pub use file::read_file;
pub use kind::Kind;
pub use lists::{Element, read_list};
pub use objects::{Entry, Objects};
pub use passing::pass;
pub use values::{Value, Values, value_after};
