//! Where refused input stands.

/// Where what is refused stands.
#[derive(Clone, Copy, Debug)]
pub enum Place<'a> {
    /// The line of the script itself.
    Line,
    /// A part of what the line reads.
    Unit {
        /// The name of the source or stream, or `slurm`.
        name: &'a str,
        /// The number of the part, from 1: a payload, a line of a file, a PDU, a record or a message. It is 1
        /// in a SLURM file.
        unit: u64,
    },
}
