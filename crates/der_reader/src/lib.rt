//! The distinguished encoding (DER, X.690) of the few values that an attestation is made of: one value with a given tag, and an
//! INTEGER of 32 bits. A value is a tag, a length and a content, and has one spelling.
//!
//! The layer above uses one contract: **[`take_value`] and [`take_u32`] succeed exactly where the bytes begin with a spelling**, and
//! answer what it spells and the bytes after it. Where they don't begin with one, the fault is the first rule that fails, read from the
//! left. [`put_value`] and [`put_u32`] append the spelling, and `laws` says that it is the only one. All reading takes no memory.
//!
//! Begin with `specs/Value.antt` and `specs/Integer.antt`, which say what a spelling is; the rules in their order stand in
//! `specs/Fault.antt`. Proofs above cite `proofs/FrontLemmas.antt`: what stands at the front of some bytes is determined.
#![tactic(auto)]

mod fault;
mod integer;
mod laws;
mod number;
mod value;
mod writing;

pub use fault::DerFault;
pub use integer::take_u32;
pub use laws::{
    each_content_has_one_spelling, each_number_has_one_content, no_spelling_is_a_front_of_another,
};
pub use value::take_value;
pub use writing::{put_u32, put_value};
