//! A reader and a writer in memory that can be made to fail.
use std::alloc::Global;
use std::io::{Error, ErrorKind, Read, Result, Write};

/// A text that is read in pieces, and may fail at some place.
#[derive(Drop)]
pub(crate) struct Source<'a> {
    rest: &'a [u8],
    piece: usize,
    fails_at_end: bool,
}

impl<'a> Source<'a> {
    pub(crate) fn new(text: &'a [u8]) -> Source<'a> {
        Source {
            rest: text,
            piece: usize::MAX,
            fails_at_end: false,
        }
    }

    /// Gives this many bytes, and then fails; where it is none it gives all.
    pub(crate) fn failing_after(mut self, length: Option<usize>) -> Source<'a> {
        if let Some(length) = length {
            self.rest = &self.rest[..length.min(self.rest.len())];
            self.fails_at_end = true;
        }
        self
    }

    /// Gives at most this many bytes at once.
    pub(crate) fn in_pieces_of(mut self, piece: usize) -> Source<'a> {
        self.piece = piece;
        self
    }
}

impl Read for Source<'_> {
    fn read(&mut self, buf: &mut [u8]) -> Result<usize> {
        if self.rest.is_empty() && self.fails_at_end {
            return Err(Error::from(ErrorKind::Interrupted));
        }
        let count = self.rest.len().min(buf.len()).min(self.piece);
        let (now, rest) = self.rest.split_at(count);
        buf[..count].copy_from_slice(now);
        self.rest = rest;
        Ok(count)
    }
}

/// The bytes that were written, as far as there is room.
#[derive(Drop)]
pub(crate) struct Sink {
    pub(crate) taken: Vec<u8>,
    room: usize,
    piece: usize,
    stuck: bool,
}

impl Sink {
    pub(crate) fn new(alloc: Global) -> Sink {
        Sink {
            taken: Vec::new(alloc),
            room: usize::MAX,
            piece: usize::MAX,
            stuck: false,
        }
    }

    /// Takes this many bytes; then it fails once, or takes none once where it is stuck. Where it is none it takes all.
    pub(crate) fn with_room(mut self, room: Option<usize>, stuck: bool) -> Sink {
        self.room = room.unwrap_or(usize::MAX);
        self.stuck = stuck;
        self
    }

    /// Takes at most this many bytes at once.
    pub(crate) fn in_pieces_of(mut self, piece: usize) -> Sink {
        self.piece = piece;
        self
    }
}

impl Write for &mut Sink {
    fn write(&mut self, buf: &[u8]) -> Result<usize> {
        let count = buf.len().min(self.room).min(self.piece);
        if count == 0 {
            // Only this once: what is written after a failure would be seen.
            self.room = usize::MAX;
            if self.stuck {
                return Ok(0);
            }
            return Err(Error::from(ErrorKind::Interrupted));
        }
        self.taken.extend_from_slice(&buf[..count])?;
        self.room -= count;
        Ok(count)
    }

    fn flush(&mut self) -> Result<()> {
        Ok(())
    }
}
