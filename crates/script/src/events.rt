//! The events of a transcript, taken one at a time.
//!
//! ```text
//! 1  0 0 begin 10 => started     Some(Ok(Event { position: 0, .. }))
//! 2  1 0 scan 10 - - => rows 1   Some(Ok(Event { position: 1, .. })), with the row
//! 3  row a 1
//! 4  2 0 commit                  Some(Err(Fault { line: 4, .. }))
//! ```
ghost use Rattle.std.specs.Prelude.{◌≡◌, ◌≢◌, ◌≤◌, true, length, IfOk, IfErr, MatchResult};
ghost use Rattle.script.specs.EventLines.{heading_at, wants_at};
ghost use Rattle.script.specs.Transcripts.{Fails, HasHeader, TakesLines, TakesEvent, next_at, event_at, left_of, outcome, transcript_at, Transcript, left_at};
ghost use Rattle.script.specs.declared.fault.TranscriptError.TheVariants.{NoMemory};

use crate::fault::{Taken, TranscriptError};
use crate::following::take_following;
use crate::headings::{Heading, read_heading};
use crate::lines::Lines;
use spans::Event;
use std::alloc::Global;
use std::marker::Model;
use text_format::Format;
use word_lines::fault::{LineFault, ReadError};

/// The events of a transcript that are still to be read. The text is lent, and memory is taken for one event at a time.
#[derive(Drop)]
pub struct Events<'a> {
    lines: Lines<'a>,
    format: Format,
}

impl<'a> Model for Events<'a> {
    ghost Value = { Transcript };

    ghost view = { λ e. left_at e.format e.lines };
}

impl<'a> Events<'a> {
    /// The events of a transcript of a format. A text that doesn't begin with the format's header is faulty in its
    /// first line, by `WordCount`.
    pub fn new(text: &'a [u8], format: Format) -> Result<Events<'a>, TranscriptError>
        // An event has a byte at least.
        ensures few { IfOk result (λ left. length left.events ≤ length text.now) }
        ensures exact { MatchResult result (λ left. transcript_at format text.now ≡ outcome left) (λ e. Fails e (transcript_at format text.now)) }
        // What is left is all that stands behind the header, and only a missing header is refused. No memory is wanted.
        ensures left { MatchResult result (λ left. HasHeader format text.now × (left ≡ left_of format text.now)) (λ e. (e ≢ NoMemory) × (HasHeader format text.now → ⊥)) }
    {
        match text.strip_prefix(format.header()) {
            Some(body) => Ok(Events {
                lines: Lines::below(body, format.header_lines()),
                format,
            }),
            None => Err(TranscriptError::Fault {
                line: 1,
                fault: LineFault::WordCount,
            }),
        }
    }

    /// Takes the next event, if there is one. What is left after an error isn't said. Memory is wanted only where the
    /// event's first line, read up to `=>`, has a key, a value or a bound of more than 24 bytes, or such an answer,
    /// or where a line follows that it counts. That holds of each event alike, the first or a later one.
    pub fn next(&mut self, alloc: Global) -> Option<Result<Event, TranscriptError>>
        ensures { TakesEvent result self.old self.new }
    {
        if self.lines.is_empty() {
            return None;
        }
        Some(take_event(alloc, &mut self.lines, self.format))
    }
}

/// Takes the lines of one event.
#[tactic(auto, unfolding(crate::specs::Transcripts::event_at))]
fn take_event(alloc: Global, lines: &mut Lines, format: Format) -> Taken<Event>
    ensures exact { TakesLines (λ x. x) result lines.new (event_at format lines.old) }
    ensures memory { IfErr result (λ e. e ≡ NoMemory → wants_at format lines.old ≡ true) }
{
    let heading = take_heading(alloc, lines, format)?;
    let reply = take_following(alloc, heading.shape, lines, format)?;
    Ok(Event {
        position: heading.position,
        seat: heading.seat,
        cmd: heading.cmd,
        reply,
    })
}

fn take_heading(alloc: Global, lines: &mut Lines, format: Format) -> Taken<Heading>
    ensures exact { TakesLines (λ x. x) result lines.new (next_at (heading_at format) lines.old) }
    ensures memory { IfErr result (λ e. e ≡ NoMemory → wants_at format lines.old ≡ true) }
{
    let number = lines.number();
    let Some(line) = lines.take_line() else {
        return Err(TranscriptError::at_line(number, ReadError::Fault(LineFault::Follow)));
    };
    read_heading(alloc, line, format).map_err(|e| TranscriptError::at_line(number, e))
}
