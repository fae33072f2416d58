//! SLURM files: an operator's filters and assertions over attestations and ROA payloads, in the manner of RFC 8416.
//!
//! The layer above uses one contract: **[`read`] answers the reading of the file**, which is the filters and the assertions of a good
//! one, or the first cause for which it is refused. Each file has exactly one reading (`laws`). The definitions speak of the tree that
//! `serde_json` gives. No tree is built: the file is read from its tokens by `json_fields`, what is passed over is dropped at once, and of
//! the rest is kept what decides (`element`, `prefix_element`, `part`, `file`). First comes the form of the whole file, then its numbers, and then its
//! prefixes, so that a wrong member anywhere comes before a wrong number anywhere, and that before a wrong prefix.
//!
//! [`read_asn`] and [`read_prefix_assertions`] are for other files of the kind, which write the same numbers and prefixes.
//!
//! Begin with `specs/Reading.antt`, and then `specs/Form.antt` and `specs/Numbers.antt`.
#![tactic(auto)]

mod draft;
mod element;
mod fault;
mod file;
mod laws;
mod numbers;
mod part;
mod prefix_element;
mod prefixes;
mod reading;
mod slurm;

pub use draft::DraftPrefixAssertion;
pub use fault::SlurmFault;
pub use laws::each_file_has_one_reading;
pub use numbers::read_asn;
pub use prefixes::read_prefix_assertions;
pub use reading::read;
pub use slurm::Slurm;
