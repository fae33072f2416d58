//! Tests of what attests: payloads and files of them, SLURM files, a validator's files, and the table that they make.
//!
//! Each table has its expected values worked out by hand; what is refused is said by the readers' contracts alone. `payloads`,
//! `payload_lines`, `slurm_files` and `validated_files` read attestations as the RPKI, an operator and a validator give them; `scale`
//! reads large ones. `held_terms` holds attestations by customer; `tables` changes a table, and counts who gives a customer its
//! providers. `origin_states` asks validated ROA payloads for the states of routes, `changes` says of payloads what comes and goes, and
//! `held_states` asks for states again behind that.
#![tactic(auto)]

#[cfg(test)]
mod changes;
#[cfg(test)]
mod held_states;
#[cfg(test)]
mod held_terms;
#[cfg(test)]
mod origin_states;
#[cfg(test)]
mod payload_lines;
#[cfg(test)]
mod payloads;
#[cfg(test)]
mod scale;
#[cfg(test)]
mod slurm_files;
#[cfg(test)]
mod tables;
#[cfg(test)]
mod validated_files;
