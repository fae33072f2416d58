//! Bytes that are held.
ghost use Rattle.std.specs.Prelude.{◌≡◌, ◌≤◌, ◌+◌, ◌-◌, [], ◌++◌, length, take, drop, IfOk, OnOk, OnErr};
ghost use Rattle.std.specs.Borrow.{sem};
ghost use Rattle.std.specs.Io.BufRead.{Rests};

use crate::Room;
use av_base::NoMemory;
use std::alloc::Global;
use std::marker::Model;

/// The bytes of a stream that came and weren't taken yet.
///
/// A byte that is held is moved at most once for each piece that comes before it is taken, and none where it is taken.
#[derive(Debug, Drop)]
pub struct HeldBytes {
    // what is kept, and room behind it
    bytes: Vec<u8>,
    // how many of these were taken
    at: usize,
    // where what is kept ends
    end: usize,
}

/// A contract sees the taken bytes that are still kept, and those that are left.
impl Model for HeldBytes {
    ghost use Rattle.std.specs.Prelude.{◌≤◌, length, take, drop};
    ghost use Rattle.held_bytes.specs.Held.{Held};

    ghost Value = { Held };

    ghost view = { λ h. record {
      taken = take h.at (take h.end h.bytes.items);
      left = drop h.at (take h.end h.bytes.items);
    } };

    ghost invariant = { λ h. (h.at ≤ h.end) × (h.end ≤ length h.bytes.items) };
}

impl HeldBytes {
    ghost use Rattle.held_bytes.specs.Held.{TakesOff};
    ghost use Rattle.held_bytes.specs.contracts.held.HeldBytes.{the_row};

    /// Nothing is held. It takes no memory.
    pub fn new(alloc: Global) -> HeldBytes
        ensures { result ≡ record { taken = []; left = [] } }
    {
        HeldBytes {
            bytes: Vec::new(alloc),
            at: 0,
            end: 0,
        }
    }

    /// Appends a piece of the stream. All that was taken is let go, once for all of it.
    pub fn push(&mut self, piece: &[u8]) -> Result<(), NoMemory>
        ensures ok { OnOk result (self.new
            ≡ record { taken = []; left = self.old.left ++ piece.now }) }
        ensures err { OnErr result (self.new ≡ record { taken = []; left = self.old.left }) }
    {
        let left = let_go(&mut self.bytes, self.at, self.end);
        self.bytes.truncate(left);
        self.at = 0;
        self.end = left;
        self.bytes.extend_from_slice(piece)?;
        self.end = self.bytes.len();
        Ok(())
    }

    /// Gives the buffer out, with room for at least so many bytes behind those that are left. All that was taken is let go, once for all of
    /// it. The buffer grows, and new bytes of it are cleared, only where it hasn't the room.
    pub fn into_room(self, count: usize) -> Result<Room, NoMemory>
        ensures held { IfOk result (λ room. take room.held room.bytes.items ≡ self.left) }
        ensures room { IfOk result (λ room. room.held + count ≤ length room.bytes.items) }
    {
        let HeldBytes { mut bytes, at, end } = self;
        let held = let_go(&mut bytes, at, end);
        let wanted = held.checked_add(count).ok_or(NoMemory)?;
        if bytes.len() < wanted {
            bytes.resize(wanted, 0)?;
        }
        Ok(Room { bytes, held })
    }

    /// Takes a buffer back, of which the bytes up to `end` are held now. None is moved.
    pub fn from_room(room: Room, end: usize) -> HeldBytes
        requires { end ≤ length room.bytes.items }
        ensures { result ≡ record { taken = []; left = take end room.bytes.items } }
    {
        let Room { bytes, held: _ } = room;
        HeldBytes { bytes, at: 0, end }
    }

    /// The bytes that are held and weren't taken.
    pub fn front(&self) -> &[u8]
        ensures { result.now ≡ self.now.left }
    {
        let (kept, _) = self.bytes.as_slice().split_at(self.end);
        let (_, left) = kept.split_at(self.at);
        left
    }

    /// Takes so many bytes off the front and lends them. They are kept until the next `push` or `into_room`, and none is moved.
    pub fn take(&mut self, count: usize) -> &[u8]
        requires { count ≤ length self.old.left }
        ensures lends { result.now ≡ take count self.old.left }
        ensures* takes { sem 𝓛 (Rests the_row self.entry (TakesOff count self.old)) }
    {
        let from = self.at;
        self.at += count;
        &self.bytes[from..self.at]
    }
}

// Moves what is left in front, behind which all is let go, and answers how many bytes that are.
fn let_go(bytes: &mut Vec<u8>, at: usize, end: usize) -> usize
    requires order { at ≤ end }
    requires within { end ≤ length bytes.old.items }
    ensures count { result ≡ end - at }
    ensures left { take result bytes.new.items ≡ drop at (take end bytes.old.items) }
    ensures len { length bytes.new.items ≡ length bytes.old.items }
{
    if 0 < at {
        bytes.copy_within(at..end, 0);
    }
    end - at
}
