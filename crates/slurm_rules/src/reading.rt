//! A SLURM file, from its bytes on.
ghost use Rattle.std.specs.Prelude.{◌≡◌};
ghost use Rattle.slurm_rules.specs.Answers.{Answers};
ghost use Rattle.slurm_rules.specs.Reading.{IsReading};

use crate::fault::SlurmFault;
use crate::file::File;
use crate::numbers::read_content;
use crate::slurm::Slurm;
use json_fields::read_file;
use std::alloc::Global;

/// Reads a SLURM file. A refusal is the first cause in order that holds anywhere in the file. Of members of one name the last counts.
pub fn read(alloc: Global, bytes: &[u8]) -> Result<Slurm, SlurmFault>
    ensures { Answers (IsReading bytes.now) result }
{
    let file: File = read_file(alloc, bytes)?;
    let version = file.version().ok_or(SlurmFault::Version)?;
    let draft = file.into_draft(alloc, version).ok_or(SlurmFault::Member)?;
    read_content(alloc, &draft)
}
