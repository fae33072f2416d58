//! A script read piece by piece.
ghost use Rattle.std.specs.Prelude.{◌≡◌, ◌<◌, ◌≤◌, List, ℕ, length, take, drop, IfOk, IsErrOf, OnErr};
ghost use Rattle.av_base.specs.Told.{Rose};
ghost use Rattle.av_text.specs.Lines.{AreWhole, IsPart};
ghost use Rattle.aspa_top.specs.Script.{Came, ComesMore, held_of};

use av_base::{ReadFault, Source};

// The most bytes that are held of a part of a line: by the first one it is a comment or not, and with 4,097 more it is too long, also where
// the last of them is a CR before the LF.
const MOST_HELD: usize = 4_098;

/// What came of reading once more.
#[derive(Clone, Copy)]
pub(crate) enum Piece {
    /// So many bytes, at least one; and so many of all that is held now are whole lines.
    More(usize, usize),
    /// Nothing is left.
    End,
    /// There is more than may come.
    Over,
}

/// Reads once, and adds what came to what is held. So many bytes may come. What the buffer holds is of no use.
pub(crate) fn read_piece<S: Source>(
    source: &mut S,
    held: &mut Vec<u8>,
    room: usize,
    buffer: &mut [u8],
) -> Result<Piece, ReadFault>
    requires some { 0 < length buffer.old }
    ensures came { IfOk result (λ piece. Came room (S.left source.old) (S.left source.new)
        held.old.items held.new.items piece) }
    ensures fault { IsErrOf result ReadFault.Source → S.left source.new ≡ S.left source.old }
    ensures lost { OnErr result (ComesMore (S.left source.old) (S.left source.new)) }
    ensures cause { IsErrOf result ReadFault.Source → Rose (S.faults source.old) (S.faults source.new) }
    ensures faults { S.faults source.old ≤ S.faults source.new }
{
    let most = room.min(buffer.len()).max(1);
    let count = source.read(&mut buffer[..most])?;
    if count == 0 {
        return Ok(Piece::End);
    }
    if room == 0 {
        return Ok(Piece::Over);
    }
    let (bytes, _) = buffer.split_at(count);
    let end = end_of_lines(bytes);
    let before = held.len();
    held.extend_from_slice(bytes)?;
    if end == 0 {
        return Ok(Piece::More(count, 0));
    }
    Ok(Piece::More(count, before + end))
}

/// Lets go of so many bytes in front, and of those that don't matter in the part of a line that is left.
pub(crate) fn let_go(held: &mut Vec<u8>, end: usize)
    requires { end ≤ length held.old.items }
    ensures { held.new.items ≡ held_of (drop end held.old.items) }
{
    held.drain(..end);
    held.truncate(MOST_HELD);
}

// Where the bytes after the last LF begin.
fn end_of_lines(bytes: &[u8]) -> usize
    ensures within { result ≤ length bytes.now }
    ensures whole { AreWhole (take result bytes.now) }
    ensures part { IsPart (drop result bytes.now) }
{
    let mut end = bytes.len();
    while end > 0 {
        if bytes[end - 1] == b'\n' {
            break;
        }
        end -= 1;
    }
    end
}
