//! The rows that a transcript's last scan at a closed timestamp found: what a replica begins with.
//!
//! ```text
//! 4 0 protect 10 => protected 1
//! 5 0 scanat 10 - - => rows 1       the seed: all keys, at 10, with the row a 1
//! row a 1
//! 6 0 open - - 10 => opened 1
//! ```
ghost use Rattle.std.specs.Prelude.{◌≡◌, IfOk, IfErr};
ghost use Rattle.follow.specs.Seeds.{IsSeedOf, IsUnseeded, IsLastScan, IsUnscanned, refusal_of, scan_in};

use script::events::Events;
use script::fault::TranscriptError;
use spans::{Cmd, Event, Reply, Rows, Span};
use std::alloc::{AllocError, Global};
use text_format::Format;
use timestamps::{Key, Value};
use word_lines::fault::LineFault;

/// The rows that a scan found in a span, at a timestamp.
#[derive(Debug, Drop, PartialEq, Eq)]
pub struct Seed {
    pub span: Span,
    pub cursor: u64,
    pub rows: Vec<(Key, Value)>,
}

/// Why a text has no seed.
#[derive(Clone, Copy, Debug, PartialEq, Eq)]
pub enum SeedError {
    /// A line of it is faulty.
    Fault { line: u64, fault: LineFault },
    /// It has no scan at a timestamp that was answered with rows.
    NoScan,
    /// A growth of memory was refused.
    NoMemory,
}

/// The span of a scan that was answered, its timestamp, and the rows that it found.
type Found = (Span, u64, Rows);

/// The seed of a transcript, in the format that its first line says: what its last scan at a timestamp found. That the
/// transcript is right isn't looked at. No event is kept, so memory is wanted only to read one that may want it, as
/// [`Events::next`] says, or to copy the rows of the last scan.
pub fn seed_of(alloc: Global, text: &[u8]) -> Result<Seed, SeedError>
    ensures found { IfOk result (IsSeedOf text.now) }
    ensures refused { IfErr result (IsUnseeded text.now) }
{
    let mut events = match Events::new(text, Format::of_transcript(text)) {
        Ok(events) => events,
        Err(error) => return Err(refusal(error)),
    };
    let (span, cursor, rows) = last_scan(alloc, &mut events)?;
    match copied(alloc, rows.as_slice()) {
        Ok(rows) => Ok(Seed { span, cursor, rows }),
        Err(_) => Err(SeedError::NoMemory),
    }
}

/// The last scan of the events that are left.
fn last_scan(alloc: Global, events: &mut Events) -> Result<Found, SeedError>
    ensures found { IfOk result (IsLastScan events.old) }
    ensures refused { IfErr result (IsUnscanned events.old) }
{
    let mut last = None;
    while let Some(event) = events.next(alloc) {
        match event {
            Ok(event) => last = scan_of(event).or(last),
            Err(error) => return Err(refusal(error)),
        }
    }
    last.ok_or(SeedError::NoScan)
}

/// The scan of an event, if it is one.
fn scan_of(event: Event) -> Option<Found>
    ensures { result ≡ scan_in event }
{
    let Cmd::ScanAt { t, .. } = event.cmd else {
        return None;
    };
    let (cmd, reply) = event.into_parts();
    Some((cmd.into_span()?, t, reply.into_rows()?))
}

/// Why there is no seed in a text that can't be read.
fn refusal(error: TranscriptError) -> SeedError
    ensures { result ≡ refusal_of error }
{
    match error {
        TranscriptError::Fault { line, fault } => SeedError::Fault { line, fault },
        TranscriptError::NoMemory => SeedError::NoMemory,
    }
}

/// The rows once more.
fn copied(alloc: Global, rows: &[(Key, Value)]) -> Result<Vec<(Key, Value)>, AllocError>
    ensures { IfOk result (λ copies. copies.items ≡ rows.now) }
{
    let mut copies = Vec::new(alloc);
    for (key, value) in rows {
        copies.push((key.copy()?, value.copy()?))?;
    }
    Ok(copies)
}
