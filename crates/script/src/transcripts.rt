//! Transcripts: a format's header, and the texts of events, one after the other.
//!
//! ```text
//! 1  0 0 begin 10 => started
//! 2  1 0 scan 10 - - => rows 2
//! 3  row a 1
//! 4                              follow at line 4: a row is missing
//! ```
//!
//! The place of `=>` is known from the number of the command's arguments, so a value may be spelled so.
//! However many lines an answer counts, room is made line by line, as they come.
ghost use Rattle.std.specs.Prelude.{◌≡◌, ◌≢◌, ◌⊎◌, [], IfOk, IfErr};
ghost use Rattle.std.specs.List.{All};
ghost use Rattle.script.specs.Prelude.{IsEvent};
ghost use Rattle.script.specs.Transcripts.{Tells, TranscriptWants, WantsNext, outcome, transcript_at, transcript_text};
ghost use Rattle.script.specs.declared.fault.TranscriptError.TheVariants.{NoMemory};

use crate::events::Events;
use crate::fault::{Taken, TranscriptError};
use spans::Event;
use std::alloc::Global;
use text_format::Format;

/// Reads a transcript of a format: its events, or the first line that is faulty. A text that doesn't begin with the
/// format's header is faulty in its first line, by `WordCount`.
///
/// Memory is wanted only where there is an event to keep, or where the first event's first line, read up to `=>`, has a
/// key, a value or a bound of more than 24 bytes, or such an answer, or where a line follows that it counts.
pub fn read_transcript(
    alloc: Global,
    text: &[u8],
    format: Format,
) -> Result<Vec<Event>, TranscriptError>
    // What is read is the text of these events, byte for byte.
    ensures found { IfOk result (λ events. (text.now ≡ transcript_text format events.items) × All (IsEvent format) events.items) }
    // Which fault it is, and in which line: the first from the top and from the left.
    ensures exact { Tells (λ events. events.items) result (transcript_at format text.now) }
    // Memory is wanted only where there is an event to keep, or where the first may want it, whether it is right or
    // faulty.
    ensures memory { IfErr result (λ e. e ≡ NoMemory → TranscriptWants format text.now) }
{
    let left = Events::new(text, format)?;
    all_of(alloc, left)
}

/// Reads all that is left.
fn all_of(alloc: Global, mut left: Events) -> Taken<Vec<Event>>
    ensures exact { Tells (λ events. events.items) result (outcome left.entry) }
    ensures memory { IfErr result (λ e. e ≡ NoMemory → (left.entry.events ≢ []) ⊎ WantsNext left.entry) }
{
    let mut events = Vec::new(alloc);
    while let Some(event) = left.next(alloc) {
        events.push(event?)?;
    }
    Ok(events)
}
