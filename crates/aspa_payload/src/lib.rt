//! Attestation payloads of the RPKI (draft-ietf-sidrops-aspa-profile, section 3, without the CMS wrapping), and files of them: one
//! after another, or one a line in base64, alone or with the moment at which what it attests ends.
//!
//! The layer above uses one contract: **[`read_many`] and [`read_lines`] answer the reading of the file**. That is the union per
//! customer of all its payloads, or the attestations that its lines make, each with its end; or else the number of the first refused
//! unit with the first rule that it breaks. Each file has exactly one reading (`laws`). [`read`] reads exactly one payload, and
//! [`Payload::write`] appends the one spelling, which is read again whatever follows it.
//!
//! Begin with `specs/Payload.antt` and `specs/Content.antt`, which say what a payload is; what a file is says `specs/File.antt`, what a
//! line is `specs/Line.antt`, and what a file of lines is `specs/Lines.antt`.
#![tactic(auto)]

mod content;
mod fault;
mod file;
mod laws;
mod line;
mod lines;
mod payload;
mod reading;
mod writing;

pub use fault::PayloadFault;
pub use file::{FileFault, read_many};
pub use laws::{
    each_attestation_has_one_payload, each_file_has_one_reading,
    each_file_of_lines_has_one_reading, one_payload_at_the_front, written_is_read_again,
};
pub use line::Dated;
pub use lines::read_lines;
pub use payload::Payload;
pub use reading::read;
