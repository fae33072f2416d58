//! Bytes that have names, and pieces of them.
use crate::spelling::{number_of, parted, put_text};
use crate::trouble::Trouble;
use std::alloc::Global;

/// A name, and bytes: of a vector, of a file, or those that a connection to a place receives or a caller there sends.
#[derive(Drop)]
pub struct Named {
    pub name: String,
    pub bytes: Vec<u8>,
}

/// Which turn of a row it is, and how many bytes the sink's calls before that one move.
#[derive(Clone, Copy)]
pub struct Turn {
    pub number: usize,
    pub moved: usize,
}

impl Turn {
    /// The first turn, before which nothing is moved.
    pub const FIRST: Turn = Turn {
        number: 1,
        moved: 0,
    };
}

/// All vectors, each under a name of its own.
#[derive(Drop)]
pub struct Vectors {
    alloc: Global,
    all: Vec<Named>,
}

impl Vectors {
    /// None yet.
    pub fn new(alloc: Global) -> Vectors {
        Vectors {
            alloc,
            all: Vec::new(alloc),
        }
    }

    /// Adds a vector, under a name that none has.
    pub fn add(&mut self, vector: Named) -> Result<(), Trouble> {
        if self.find(vector.name.as_str()).is_ok() {
            return Err(Trouble::Line);
        }
        self.all.push(vector)?;
        Ok(())
    }

    /// Adds a vector: its name, a blank, and its text.
    pub fn define(&mut self, definition: &str) -> Result<(), Trouble> {
        let (name, text) = parted(definition, ' ')?;
        let mut bytes = Vec::new(self.alloc);
        put_text(&mut bytes, text)?;
        self.add(Named {
            name: String::from_str(self.alloc, name)?,
            bytes,
        })
    }

    /// Adds a vector: its name, and pieces that don't depend on a turn.
    pub fn join(&mut self, definition: &str) -> Result<(), Trouble> {
        let vector = self.named(definition, Turn::FIRST)?;
        self.add(vector)
    }

    /// Adds a vector: its name, and the numbers from a first one to a last one, each with a comma behind it.
    pub fn number(&mut self, definition: &str) -> Result<(), Trouble> {
        let (name, range) = parted(definition, ' ')?;
        let (first, last) = parted(range, ' ')?;
        let mut bytes = Vec::new(self.alloc);
        for number in number_of(first)?..=number_of(last)? {
            let text = format!(in self.alloc; "{number},")?;
            bytes.extend_from_slice(text.as_bytes())?;
        }
        self.add(Named {
            name: String::from_str(self.alloc, name)?,
            bytes,
        })
    }

    /// A name, and the pieces behind it.
    pub fn named(&self, text: &str, turn: Turn) -> Result<Named, Trouble> {
        let (name, pieces) = text.split_once(' ').unwrap_or((text, ""));
        Ok(Named {
            name: String::from_str(self.alloc, name)?,
            bytes: self.joined(pieces, turn)?,
        })
    }

    /// The bytes of pieces.
    pub fn joined(&self, pieces: &str, turn: Turn) -> Result<Vec<u8>, Trouble> {
        let mut bytes = Vec::new(self.alloc);
        self.put_pieces(&mut bytes, pieces, turn)?;
        Ok(bytes)
    }

    /// Appends the bytes of pieces, which blanks part.
    pub fn put_pieces(&self, out: &mut Vec<u8>, pieces: &str, turn: Turn) -> Result<(), Trouble> {
        for piece in pieces.split_whitespace() {
            self.put_piece(out, piece, turn)?;
        }
        Ok(())
    }

    // `NAME`, and `COUNT*` before it for how many times it stands there, or `:LENGTH` behind it for how many of its first bytes do.
    fn put_piece(&self, out: &mut Vec<u8>, piece: &str, turn: Turn) -> Result<(), Trouble> {
        let (count, piece) = match piece.split_once('*') {
            Some((count, piece)) => (number_of(count)?, piece),
            None => (1, piece),
        };
        let (name, length) = match piece.split_once(':') {
            Some((name, length)) => (name, length_of(length, turn)?),
            None => (piece, usize::MAX),
        };
        let bytes = self.find(name)?;
        let (front, _) = bytes.split_at(length.min(bytes.len()));
        for _ in 0..count {
            out.extend_from_slice(front)?;
        }
        Ok(())
    }

    fn find(&self, name: &str) -> Result<&[u8], Trouble> {
        for vector in self.all.iter() {
            if vector.name.as_str() == name {
                return Ok(vector.bytes.as_slice());
            }
        }
        Err(Trouble::Line)
    }
}

// A number, `k` for the turn's, `k-NUMBER` for so many less, or `moved` for what is moved before it.
fn length_of(text: &str, turn: Turn) -> Result<usize, Trouble> {
    match text {
        "moved" => Ok(turn.moved),
        "k" => Ok(turn.number),
        _ => match text.strip_prefix("k-") {
            Some(less) => Ok(turn.number.saturating_sub(number_of(less)?)),
            None => number_of(text),
        },
    }
}
