//! A file that was opened.
ghost use Rattle.std.specs.Prelude.{◌≡◌, ◌<◌, ◌≤◌, None, Ok, Some, length, IfOk};
ghost use Rattle.std.specs.Io.KnownBytes.{ReadConsumes};
ghost use Rattle.system_objects.specs.Known.{left_in};

use crate::again::read_again;
use av_base::Fault;
use std::io::Read;
use std::time::Clock;

/// A file that was opened. It is dropped once its end was met or it was let go, and gives nothing from then on.
#[derive(Drop)]
pub struct OpenedFile<F: Read> {
    reader: Option<F>,
}

impl<F: Read + Drop> OpenedFile<F> {
    /// The file that this reader reads.
    pub fn new(reader: F) -> OpenedFile<F>
        ensures { result ≡ record { reader = Some reader } }
    {
        OpenedFile {
            reader: Some(reader),
        }
    }

    /// Moves bytes from the front of what is left to the front of the buffer, and answers how many.
    pub fn read<C: Clock>(&mut self, clock: &C, buf: &mut [u8]) -> Result<usize, Fault>
        requires { 0 < length buf.old }
        ensures bound { IfOk result (λ n. n ≤ length buf.new) }

        // Bytes that the file knows are given as they are, 0 comes only at their end, and at a fault none is lost.
        ensures known { ReadConsumes (left_in F.remaining self.old.reader) (left_in F.remaining self.new.reader)
            result buf.new }

        // At its end the file is let go, and gives nothing from then on.
        ensures dropped { IfOk result (λ n. n ≡ 0 → self.new.reader ≡ None) }
        ensures ended { self.old.reader ≡ None → result ≡ Ok 0 }
    {
        let Some(reader) = &mut self.reader else {
            return Ok(0);
        };
        let count = read_again(reader, clock, buf)?;
        if count == 0 {
            self.reader = None;
        }
        Ok(count)
    }

    /// Lets the file go. It gives nothing from then on.
    pub fn let_go(&mut self)
        ensures { self.new ≡ record { reader = None } }
    {
        self.reader = None;
    }
}
