//! The lines that follow an event's first line: the rows or the messages of its reply.
ghost use Rattle.std.specs.Prelude.{◌≡◌, ◌<◌, true, length, IfErr};
ghost use Rattle.script.specs.Prelude.{Gives};
ghost use Rattle.script.specs.EventLines.{pair_at, pair_of, row_line_at, message_line_at, read_error_of, has_lines};
ghost use Rattle.script.specs.Transcripts.{TakesLines, next_at, many_at, following_at};
ghost use Rattle.script.specs.declared.fault.TranscriptError.TheVariants.{NoMemory};

use crate::fault::{Taken, TranscriptError};
use crate::lines::Lines;
use crate::reply_reading::Shape;
use json_lines::{MessageFault, read_message};
use spans::{Message, Messages, Reply, Rows};
use std::alloc::Global;
use text_format::Format;
use timestamps::{Key, Value};
use word_lines::arguments::{take_key, take_value};
use word_lines::fault::{LineFault, Parsed, ReadError};
use word_lines::words::{Words, text_of, words_of};

/// The reply of a shape, with the lines that follow taken.
#[tactic(auto, unfolding(crate::specs::Transcripts::following_at))]
pub(crate) fn take_following(
    alloc: Global,
    shape: Shape,
    lines: &mut Lines,
    format: Format,
) -> Taken<Reply>
    ensures exact { TakesLines (λ x. x) result lines.new (following_at format shape lines.old) }
    // Memory is wanted only where lines are counted, and one is there.
    ensures memory { IfErr result (λ e. e ≡ NoMemory → (has_lines shape ≡ true) × (0 < length lines.old.lines)) }
{
    match shape {
        Shape::Alone(reply) => Ok(reply),
        Shape::Rows(count) => Ok(Reply::Rows(take_rows(alloc, count, lines, format)?)),
        Shape::Messages(count) => Ok(Reply::Messages(take_messages(alloc, count, lines, format)?)),
    }
}

/// Takes so many rows. Room is made for those alone that came, and a first line is looked for before any is made.
fn take_rows(alloc: Global, count: u64, lines: &mut Lines, format: Format) -> Taken<Rows>
    ensures exact { TakesLines (λ rows. rows) result lines.new (many_at (row_line_at format) count lines.old) }
    ensures memory { IfErr result (λ e. e ≡ NoMemory → (0 < count) × (0 < length lines.old.lines)) }
{
    let mut rows = Vec::new(alloc);
    for _ in 0..count {
        let row = take_row(alloc, lines, format)?;
        rows.push(row)?;
    }
    Ok(Rows::from_vec(rows))
}

/// Takes so many messages. Room is made for those alone that came, and a first line is looked for before any is made.
fn take_messages(alloc: Global, count: u64, lines: &mut Lines, format: Format) -> Taken<Messages>
    ensures exact { TakesLines (λ messages. messages) result lines.new (many_at (message_line_at format) count lines.old) }
    ensures memory { IfErr result (λ e. e ≡ NoMemory → (0 < count) × (0 < length lines.old.lines)) }
{
    let mut messages = Vec::new(alloc);
    for _ in 0..count {
        let message = take_message(alloc, lines, format)?;
        messages.push(message)?;
    }
    Ok(Messages::from_vec(messages))
}

fn take_row(alloc: Global, lines: &mut Lines, format: Format) -> Taken<(Key, Value)>
    ensures exact { TakesLines (λ x. x) result lines.new (next_at (row_line_at format) lines.old) }
    ensures memory { IfErr result (λ e. e ≡ NoMemory → 0 < length lines.old.lines) }
{
    let number = lines.number();
    let Some(line) = lines.take_line() else {
        return Err(TranscriptError::at_line(number, ReadError::Fault(LineFault::Follow)));
    };
    read_row(alloc, line, format).map_err(|e| TranscriptError::at_line(number, e))
}

fn take_message(alloc: Global, lines: &mut Lines, format: Format) -> Taken<Message>
    ensures exact { TakesLines (λ x. x) result lines.new (next_at (message_line_at format) lines.old) }
    ensures memory { IfErr result (λ e. e ≡ NoMemory → 0 < length lines.old.lines) }
{
    let number = lines.number();
    let Some(line) = lines.take_line() else {
        return Err(TranscriptError::at_line(number, ReadError::Fault(LineFault::Follow)));
    };
    read_message_line(alloc, line, format).map_err(|e| TranscriptError::at_line(number, e))
}

/// Reads the line of a row, with its newline.
#[tactic(auto, unfolding(crate::specs::EventLines::row_line_at))]
pub fn read_row(alloc: Global, line: &[u8], format: Format) -> Result<(Key, Value), ReadError>
    ensures { Gives (λ x. x) result (row_line_at format line.now) }
{
    let text = text_of(line, format)?;
    match pair_of(alloc, text, format) {
        Err(ReadError::Fault(_)) => Err(ReadError::Fault(LineFault::Follow)),
        read => read,
    }
}

#[tactic(auto, unfolding(crate::specs::EventLines::pair_of))]
fn pair_of(alloc: Global, text: &[u8], format: Format) -> Parsed<(Key, Value)>
    ensures { Gives (λ x. x) result (pair_of format text.now) }
{
    let mut words = words_of(text)?;
    let pair = take_pair(alloc, &mut words, format)?;
    if !words.is_empty() {
        return Err(ReadError::Fault(LineFault::WordCount));
    }
    Ok(pair)
}

/// `row KEY VALUE`.
#[tactic(auto, unfolding(crate::specs::EventLines::pair_at))]
fn take_pair(alloc: Global, words: &mut Words, format: Format) -> Parsed<(Key, Value)>
    ensures { Gives (λ x. (x, words.new)) result (pair_at format words.old) }
{
    let name = words.take_word().ok_or(LineFault::WordCount)?;
    if name != b"row".as_slice() {
        return Err(ReadError::Fault(LineFault::Follow));
    }
    let key = take_key(alloc, words, format)?;
    let value = take_value(alloc, words, format)?;
    Ok((key, value))
}

/// Reads the line of a message, with its newline.
#[tactic(auto, unfolding(crate::specs::EventLines::message_line_at))]
fn read_message_line(alloc: Global, line: &[u8], format: Format) -> Parsed<Message>
    ensures { Gives (λ x. x) result (message_line_at format line.now) }
{
    text_of(line, format)?;
    match read_message(alloc, line, format) {
        Ok(message) => Ok(message),
        Err(fault) => Err(read_error_of(fault)),
    }
}

/// The fault of a line that is no message, or out of memory.
fn read_error_of(fault: MessageFault) -> ReadError
    ensures { result ≡ read_error_of fault }
{
    match fault {
        MessageFault::NoMemory => ReadError::NoMemory,
        _ => ReadError::Fault(LineFault::Follow),
    }
}
