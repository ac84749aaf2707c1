//! The consumer of one feed.
ghost use Rattle.std.specs.Prelude.{◌≡◌, Some, IfOk, IfErr, OnErr};
ghost use Rattle.replica.specs.Replicas.{complete_in, through_in};
ghost use Rattle.embedded_replica.specs.Consumers.{replica_of, opening_of, Begins, BeginsBy, IsUnopened, HasTaken, IsRefused, IsReady, IsNoMessage, IsNoKey, Shows, ShowsRows, IsUnopenedBy, seeded_of, BeginsWith, SeededBy, IsUnseeded, IsUnseededBy};

use crate::rows::{pairs_of, text_of};
use json_lines::buffer::copy_front;
use json_lines::{MessageFault, read_message};
use replica::{Fault, Replica};
use spans::limits::MAX_SEATS;
use spans::{Cmd, Message, Span};
use std::alloc::{AllocError, Global};
use text_format::Format;
use timestamps::ts::MAX;
use timestamps::{Key, KeyError};
use word_lines::commands::read_command;
use word_lines::fault::{LineFault, ReadError};

/// The consumer of one feed: a replica of its span, with the program's heap.
pub struct Consumer {
    alloc: Global,
    pub(crate) replica: Replica,
}

// for the proof, which has no case for each part of it where a consumer is dropped
impl Drop for Consumer {
    fn drop(self) {
        let Consumer {
            alloc: _,
            replica: _,
        } = self;
    }
}

/// Why no consumer begins by a line.
#[derive(Clone, Copy, Debug)]
pub enum BeginError {
    /// The line is faulty.
    Fault(LineFault),
    /// The line's command opens no feed, or opens it above the greatest timestamp.
    NoFeed,
    /// A growth of memory was refused.
    NoMemory,
}

/// Why no consumer begins by a line and rows, in the order of the tests.
#[derive(Clone, Copy, Debug)]
pub enum SeedingError {
    /// The line is faulty.
    Fault(LineFault),
    /// The line's command opens no feed that begins with rows: none at all, an initial one, or one above the greatest
    /// timestamp.
    NoFeed,
    /// The text isn't lines of rows: the first fault.
    Rows(LineFault),
    /// The keys don't rise.
    NotAfter,
    /// A key lies outside the span.
    OutsideSpan,
    /// A growth of memory was refused.
    NoMemory,
}

/// Why a line was not taken. Nothing changed.
#[derive(Clone, Copy, Debug)]
pub enum TakeError {
    /// It isn't the line of a message, or ran out of memory.
    Line(MessageFault),
    /// Its message is refused, or ran out of memory.
    Message(Fault),
}

impl Consumer {
    /// The consumer of the feed that a line's command opens, from any seat: a line of format two, with its newline.
    ///
    /// It begins empty. One of an initial feed is told what the span held at the cursor; any other is to be told only
    /// of a feed whose span held nothing there, else `begin` makes it.
    pub fn open(alloc: Global, line: &[u8]) -> Result<Consumer, BeginError>
        ensures ok { IfOk result (λ c. Begins line.now (replica_of c)) }
        ensures err { IfErr result (IsUnopened line.now) }
    {
        let cmd = match read_command(alloc, line, MAX_SEATS, Format::Two) {
            Ok((_, cmd)) => cmd,
            Err(ReadError::Fault(fault)) => return Err(BeginError::Fault(fault)),
            Err(ReadError::NoMemory) => return Err(BeginError::NoMemory),
        };
        let replica = begun(alloc, cmd)?;
        Ok(Consumer { alloc, replica })
    }

    /// The consumer of the feed, no initial one, that a line's command opens, from any seat: a line of format two, with
    /// its newline. It begins with rows: lines `row KEY VALUE`, as a scan's answer has them and `rows` shows them, or no
    /// bytes.
    ///
    /// They are what the span held at the cursor, or what another consumer had that was told all through there.
    pub fn begin(alloc: Global, line: &[u8], rows: &[u8]) -> Result<Consumer, SeedingError>
        ensures ok { IfOk result (λ c. BeginsWith line.now rows.now (replica_of c)) }
        ensures err { IfErr result (IsUnseeded line.now rows.now) }
    {
        let cmd = match read_command(alloc, line, MAX_SEATS, Format::Two) {
            Ok((_, cmd)) => cmd,
            Err(ReadError::Fault(fault)) => return Err(SeedingError::Fault(fault)),
            Err(ReadError::NoMemory) => return Err(SeedingError::NoMemory),
        };
        let replica = seeded(alloc, cmd, rows)?;
        Ok(Consumer { alloc, replica })
    }

    /// Takes the line of a message, with its newline.
    pub fn take(&mut self, line: &[u8]) -> Result<(), TakeError>
        ensures ok { IfOk result (λ _. HasTaken line.now (replica_of self.old) (replica_of self.new)) }
        ensures err { OnErr result (self.new ≡ self.old) }
        ensures refused { IfErr result (IsRefused line.now (replica_of self.old)) }
    {
        let message = read_message(self.alloc, line, Format::Two).map_err(TakeError::Line)?;
        self.replica.apply(message).map_err(TakeError::Message)
    }

    /// The timestamp at which the rows are the map as they stand, where the line's message shows it, which comes next.
    pub fn ready(&self, line: &[u8]) -> Result<Option<u64>, MessageFault>
        ensures ok { IfOk result (λ at. IsReady line.now (replica_of self.now) at) }
        ensures err { IfErr result (IsNoMessage line.now) }
    {
        let message = read_message(self.alloc, line, Format::Two)?;
        Ok(self.replica.ready(&message))
    }

    /// The timestamp through which it was told all.
    pub fn complete_through(&self) -> Option<u64>
        ensures { result ≡ through_in (replica_of self.now) }
    {
        self.replica.complete_through()
    }

    /// The timestamp at which its rows are the map, after a resolved message; of a feed that isn't initial also at first.
    pub fn at_resolved(&self) -> Option<u64>
        ensures { result ≡ complete_in (replica_of self.now) }
    {
        self.replica.at_resolved()
    }

    /// Shows the value of a key, and tells its whole length, or none where the key has no value.
    pub fn get(&self, key: &[u8], out: &mut [u8]) -> Result<Option<usize>, KeyError>
        ensures ok { IfOk result (Shows (replica_of self.now) key.now out.old out.new) }
        ensures err { OnErr result (out.new ≡ out.old) }
        ensures refused { IfErr result (IsNoKey key.now) }
    {
        let key = Key::new(self.alloc, key)?;
        match self.replica.get(&key) {
            None => Ok(None),
            Some(value) => Ok(Some(copy_front(value.bytes(), out))),
        }
    }

    /// Shows the lines of all rows, keys rising, and tells their whole length.
    pub fn rows(&self, out: &mut [u8]) -> Result<usize, AllocError>
        ensures ok { IfOk result (ShowsRows (replica_of self.now) out.old out.new) }
        ensures err { OnErr result (out.new ≡ out.old) }
    {
        let text = text_of(self.alloc, self.replica.rows())?;
        Ok(copy_front(text.as_slice(), out))
    }
}

/// A feed that a command opens.
#[derive(Drop)]
struct Opening {
    span: Span,
    cursor: u64,
    initial: bool,
}

/// The feed that a command opens, if it opens one.
fn opening_of(cmd: Cmd) -> Option<Opening>
    ensures { result ≡ opening_of cmd }
{
    let (cursor, initial) = match &cmd {
        Cmd::Open { cursor, .. } | Cmd::OpenEvery { cursor, .. } => (*cursor, false),
        Cmd::OpenInitial { cursor, .. } | Cmd::OpenInitialEvery { cursor, .. } => (*cursor, true),
        _ => return None,
    };
    let span = cmd.into_span()?;
    Some(Opening {
        span,
        cursor,
        initial,
    })
}

/// The replica of the feed that a command opens, with no rows.
fn begun(alloc: Global, cmd: Cmd) -> Result<Replica, BeginError>
    ensures ok { IfOk result (λ r. BeginsBy cmd (Some r)) }
    ensures err { IfErr result (IsUnopenedBy cmd) }
{
    let opening = opening_of(cmd).ok_or(BeginError::NoFeed)?;
    if opening.cursor > MAX {
        return Err(BeginError::NoFeed);
    }
    let (span, cursor) = (opening.span, opening.cursor);
    if opening.initial {
        return Ok(Replica::new_initial(alloc, span, cursor));
    }
    // no rows are no fault
    Replica::new(alloc, span, cursor, Vec::new(alloc)).map_err(|_| BeginError::NoMemory)
}

/// The span and the cursor of the feed that a command opens, if it opens one at a timestamp that isn't initial.
fn seeded_of(cmd: Cmd) -> Option<(Span, u64)>
    ensures { result ≡ seeded_of cmd }
{
    let opening = opening_of(cmd)?;
    if opening.initial || opening.cursor > MAX {
        return None;
    }
    Some((opening.span, opening.cursor))
}

/// The replica that begins with the rows of a text, of the feed that a command opens.
fn seeded(alloc: Global, cmd: Cmd, rows: &[u8]) -> Result<Replica, SeedingError>
    ensures ok { IfOk result (SeededBy cmd rows.now) }
    ensures err { IfErr result (IsUnseededBy cmd rows.now) }
{
    let (span, cursor) = seeded_of(cmd).ok_or(SeedingError::NoFeed)?;
    let pairs = match pairs_of(alloc, rows) {
        Ok(pairs) => pairs,
        Err(ReadError::Fault(fault)) => return Err(SeedingError::Rows(fault)),
        Err(ReadError::NoMemory) => return Err(SeedingError::NoMemory),
    };
    match Replica::new(alloc, span, cursor, pairs) {
        Ok(replica) => Ok(replica),
        Err(Fault::NotAfter) => Err(SeedingError::NotAfter),
        Err(Fault::OutsideSpan) => Err(SeedingError::OutsideSpan),
        Err(Fault::NoMemory) => Err(SeedingError::NoMemory),
        // rows are no resolved message
        Err(Fault::ResolvedBack) => unreachable!(),
    }
}
