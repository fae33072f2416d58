//! The bytes of a stream that came in pieces, and what units a stream has.
//!
//! [`HeldBytes`] holds what came and isn't taken yet. A framer stands over it: it looks at the `front`, and takes a whole unit off by
//! `take`, which lends its bytes. Its model tells the bytes that are left and those taken ones that are still kept; after `push` none of
//! these is, so no more is held than what isn't taken and one piece (`specs/Held.antt`). What reads a stream itself reads into its
//! buffer: `into_room` gives the buffer out, and `from_room` takes it back with what was read, so that no byte is copied.
//!
//! Begin reading at `specs/Units.antt`: what it is that a stream begins with a unit (`Begins`), and that it is these units, one behind
//! another, and a rest (`AreUnits`), for units of any kind. Where no unit begins another one, the units of a stream and its rest are
//! determined (`specs/Divided.antt`, `proofs/UnitLemmas.antt`): a framer's crate states that of its own units.
#![tactic(auto)]

mod held;
mod room;

pub use held::HeldBytes;
pub use room::Room;
