//! What a row wants: a text, what is sent on each connection, and a status.
use crate::runs::Ended;
use crate::spelling::{number_of, parted, put_text};
use crate::trouble::Trouble;
use crate::vectors::{Turn, Vectors};
use std::alloc::Global;

// What of a run's text, or of the wanted one, the other is.
#[derive(Clone, Copy)]
enum Part {
    Whole,
    // the run's text is a front of the wanted one that isn't the whole
    Front,
    // the wanted text is the end of the run's
    End,
}

// How many lines of a run's text have so many spaces.
#[derive(Clone, Copy)]
struct Counted {
    spaces: usize,
    lines: usize,
}

/// What is wanted of a run.
#[derive(Drop)]
pub struct Wanted {
    alloc: Global,
    text: Vec<u8>,
    part: Part,
    counted: Vec<Counted>,
    sent: Vec<Vec<u8>>,
    status: usize,
}

impl Wanted {
    /// No text, no connection, and the status 0.
    pub fn new(alloc: Global) -> Wanted {
        Wanted {
            alloc,
            text: Vec::new(alloc),
            part: Part::Whole,
            counted: Vec::new(alloc),
            sent: Vec::new(alloc),
            status: 0,
        }
    }

    /// Takes a line's key and the rest of it, and answers whether the key is one of those here.
    pub fn take(
        &mut self,
        key: &str,
        rest: &str,
        vectors: &Vectors,
        turn: Turn,
    ) -> Result<bool, Trouble> {
        match key {
            "<" => {
                put_text(&mut self.text, rest)?;
                self.text.push(b'\n')?;
            }
            "<*" => vectors.put_pieces(&mut self.text, rest, turn)?,
            "front" => self.part = Part::Front,
            "end" => self.part = Part::End,
            "count" => self.count(rest)?,
            "sent" => self.sent.push(vectors.joined(rest, turn)?)?,
            "status" => self.status = number_of(rest)?,
            _ => return Ok(false),
        }
        Ok(true)
    }

    // How many spaces, and how many lines.
    fn count(&mut self, text: &str) -> Result<(), Trouble> {
        let (spaces, lines) = parted(text, ' ')?;
        self.counted.push(Counted {
            spaces: number_of(spaces)?,
            lines: number_of(lines)?,
        })?;
        Ok(())
    }

    /// In what a run isn't as wanted.
    pub fn difference(&self, ended: &Ended) -> Option<&'static str> {
        if ended.status as usize != self.status {
            return Some("another status");
        }
        if !self.is_text(ended.text.as_slice()) || !self.is_counted(ended.text.as_slice()) {
            return Some("another text");
        }
        if !self.is_sent(&ended.sent) {
            return Some("other bytes sent");
        }
        None
    }

    fn is_text(&self, text: &[u8]) -> bool {
        let wanted = self.text.as_slice();
        match self.part {
            Part::Whole => text == wanted,
            Part::Front => wanted.starts_with(text) && text.len() < wanted.len(),
            Part::End => text.ends_with(wanted),
        }
    }

    fn is_counted(&self, text: &[u8]) -> bool {
        for counted in self.counted.iter() {
            if count_lines(text, counted.spaces) != counted.lines {
                return false;
            }
        }
        true
    }

    fn is_sent(&self, sent: &Vec<Vec<u8>>) -> bool {
        if sent.len() != self.sent.len() {
            return false;
        }
        for (bytes, wanted) in sent.iter().zip(self.sent.iter()) {
            if bytes.as_slice() != wanted.as_slice() {
                return false;
            }
        }
        true
    }
}

// How many lines have so many spaces.
fn count_lines(text: &[u8], wanted: usize) -> usize {
    let mut count = 0usize;
    let mut spaces = 0usize;
    for byte in text {
        if *byte == b' ' {
            spaces = spaces.saturating_add(1);
        }
        if *byte == b'\n' {
            if spaces == wanted {
                count = count.saturating_add(1);
            }
            spaces = 0;
        }
    }
    count
}
