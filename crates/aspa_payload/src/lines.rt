//! Files of base64 lines.
ghost use Rattle.std.specs.Prelude.{◌≡◌, ◌<◌, ◌≤◌, [], ◌∷◌, length, IfSome, IfNone, IfOk};
ghost use Rattle.std.specs.Str.Lines.{lines};
ghost use Rattle.aspa_payload.specs.File.{FileAnswers};
ghost use Rattle.aspa_payload.specs.Lines.{AnswersLine, IsLinesReading};

use crate::fault::PayloadFault;
use crate::file::{FileFault, of_unit};
use crate::line::{Dated, read_line};
use attestations::{GatheredTerms, Terms};
use av_text::next_line;
use std::alloc::Global;

/// Reads one base64 payload a line. What it attests ends at the moment behind the line's first space, in seconds, or never where the
/// line has none. An empty line is passed over, and a CR before its LF is dropped.
pub fn read_lines(alloc: Global, bytes: &[u8]) -> Result<Terms, FileFault>
    requires { length bytes.now ≤ 67108864 }
    ensures { FileAnswers (IsLinesReading bytes.now) result }
{
    let mut gathered = GatheredTerms::new(alloc);
    let mut buffer = Vec::new(alloc);
    let mut rest = bytes;
    let mut unit: u32 = 0;
    while let Some((line, more)) = next_line(rest, true) {
        unit += 1;
        match read_unit(alloc, line, &mut buffer, &mut gathered) {
            Ok(()) => {}
            Err(cause) => return Err(of_unit(unit, cause)),
        }
        rest = more;
    }
    Ok(gathered.into_terms()?)
}

// Gathers what one line attests.
fn read_unit(
    alloc: Global,
    line: &[u8],
    buffer: &mut Vec<u8>,
    gathered: &mut GatheredTerms,
) -> Result<(), PayloadFault>
    ensures { AnswersLine line.now gathered.old gathered.new result }
{
    if line.is_empty() {
        return Ok(());
    }
    let Dated { payload, until } = read_line(alloc, line, buffer)?;
    gathered.gather(payload.customer(), payload.providers().as_slice(), until)?;
    Ok(())
}
