//! Records cut out of a stream that comes in pieces.
ghost use Rattle.std.specs.Prelude.{◌≡◌, ◌≢◌, ◌↔◌, ◌++◌, [], OnOk, OnErr, IfOk, IsErrOf, IsTrue};
ghost use Rattle.std.specs.Borrow.{sem};
ghost use Rattle.std.specs.Io.BufRead.{Rests};

use crate::fault::FrameFault;
use crate::heading::{HEADER, whole_head};
use av_base::NoMemory;
use held_bytes::HeldBytes;
use std::alloc::Global;
use std::marker::Model;

/// One record: its time in seconds since 1970, its type and subtype, and its body.
#[derive(Clone, Copy, Debug)]
pub struct Record<'a> {
    /// The body, without the header.
    pub body: &'a [u8],
    /// Seconds since 1970.
    pub stamp: u32,
    /// The type.
    pub kind: u16,
    /// The subtype.
    pub subkind: u16,
}

/// The bytes of a stream that came and that no record took yet.
///
/// Feed it, or read into its buffer, only after `next` answered `None`: then less than a record is held, and with the piece less than a
/// record and a piece. Fed before that, or after 26 TooLong, it grows by each piece.
#[derive(Debug, Drop)]
pub struct Framer {
    held: HeldBytes,
}

impl Model for Framer {
    ghost use Rattle.std.specs.Prelude.{List, ℕ};

    ghost Value = { List ℕ };

    ghost view = { λ f. f.held.left };
}

impl Framer {
    ghost use Rattle.mrt_reader.specs.Coming.{Answers, IsNextStamp, IsPartial};
    ghost use Rattle.mrt_reader.specs.contracts.framer.Framer.{the_row};

    /// Nothing is held. It takes no memory.
    pub fn new(alloc: Global) -> Framer
        ensures { result ≡ [] }
    {
        Framer::from_held(HeldBytes::new(alloc))
    }

    /// Appends a piece of the stream. What was taken before is let go here, so that a byte of a record is moved at most once for each
    /// piece that comes before the record is whole.
    pub fn feed(mut self, piece: &[u8]) -> Result<Framer, NoMemory>
        ensures { IfOk result (λ framer. framer ≡ self ++ piece.now) }
    {
        self.held.push(piece)?;
        Ok(self)
    }

    /// A framer over bytes that are held. It takes no memory and moves no byte.
    pub fn from_held(held: HeldBytes) -> Framer
        ensures { result ≡ held.left }
    {
        Framer { held }
    }

    /// The bytes that are held, for what reads the stream into their buffer. It grows only where more of a record that isn't whole is
    /// held than at each read before, and its room doubles.
    pub fn into_held(self) -> HeldBytes
        ensures { result.left ≡ self }
    {
        let Framer { held } = self;
        held
    }

    /// Takes the first record off and lends its body. It takes no memory and moves no byte.
    ///
    /// `None` comes exactly where fewer than 12 bytes are held, or the length is allowed and the body isn't whole. 26 TooLong comes
    /// exactly where 12 bytes are held and the length is over 4,194,304; then nothing is taken, and it comes again at each later
    /// call, whatever is fed.
    pub fn next(&mut self) -> Result<Option<Record<'_>>, FrameFault>
        ensures* taken { sem 𝓛 (Rests the_row self.entry
            (λ new. Answers self.old new result)) }
    {
        match whole_head(self.held.front()) {
            Ok(Some(head)) => {
                let (_, body) = self.held.take(HEADER + head.size).split_at(HEADER);
                Ok(Some(Record {
                    body,
                    stamp: head.stamp,
                    kind: head.mrt_type,
                    subkind: head.subtype,
                }))
            }
            Ok(None) => Ok(None),
            Err(fault) => Err(fault),
        }
    }

    /// Whether `next` has an answer other than `None` for what is held.
    pub fn is_ready(&self) -> bool
        ensures { IsTrue result ↔ ¬ IsPartial self.now }
    {
        match whole_head(self.held.front()) {
            Ok(head) => head.is_some(),
            Err(_) => true,
        }
    }

    /// The time of the record that `next` would take, in seconds since 1970-01-01 00:00 UTC (RFC 6396, section 2). `None` comes exactly
    /// where `next` would take none: no whole record is held, or the length is over the limit.
    pub fn stamp(&self) -> Option<u32>
        ensures { IsNextStamp self.now result }
    {
        match whole_head(self.held.front()) {
            Ok(Some(head)) => Some(head.stamp),
            Ok(None) => None,
            Err(_) => None,
        }
    }

    /// Whether the stream may end here: 27 CutShort comes exactly where some byte is held. Where `next` answered `None` that byte
    /// begins a record that is cut.
    pub fn finish(&self) -> Result<(), FrameFault>
        ensures ok { OnOk result (self.now ≡ []) }
        ensures err { OnErr result (self.now ≢ []) }
        ensures cause { IsErrOf result FrameFault.TooLong → ⊥ }
    {
        if !self.held.front().is_empty() {
            return Err(FrameFault::CutShort);
        }
        Ok(())
    }
}
