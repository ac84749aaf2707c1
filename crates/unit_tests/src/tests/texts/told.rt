//! What the tests ask of a text.
use super::rows;
use super::unfolding::unfolded;
use json_lines::{MessageFault, read_message, write_message, write_message_line};
use script::fault::TranscriptError;
use script::scripts::read_script;
use script::transcripts::read_transcript;
use spans::{Event, Message};
use std::alloc::{AllocError, Global};
use text_format::Format;
use timestamps::{Key, Row, Ts};
use word_lines::commands::{read_command, write_command};
use word_lines::events::{write_echo, write_event};
use word_lines::fault::ReadError;
use word_lines::spelling::{bytes_of, put_spelling};

/// The line and the code of a text's fault; 0 and 0 where it is read and comes back, 0 and 101 where it comes back as
/// another, 0 and 102 where its events come back as others by the lines of their commands, and 0 and 100 for want of
/// memory.
pub(super) type Told = (u64, u8);

/// Whether a text is read as its row says.
pub(super) fn is_row_right(alloc: Global, row: &str) -> bool {
    matches!(row_told(alloc, row), Some((wanted, told)) if is_right(wanted, told))
}

pub(super) fn is_right(wanted: Told, told: Told) -> bool {
    wanted.0 == told.0 && wanted.1 == told.1
}

/// The outcome that a row wants of its text, and the one that it has.
fn row_told(alloc: Global, row: &str) -> Option<(Told, Told)> {
    let (kind, rest) = row.split_once(' ')?;
    let (seats, rest) = rest.split_once(' ')?;
    let (line, rest) = rest.split_once(' ')?;
    let (code, text) = rest.split_once(' ')?;
    let wanted = (line.parse::<u64>().ok()?, code.parse::<u8>().ok()?);
    let text = unfolded(alloc, text).ok()?;
    let seats = seats.parse::<u8>().unwrap_or(0);
    let told = match kind.as_bytes().first() {
        Some(b'c') => of_command(alloc, &text, seats, Format::One),
        Some(b'C') => of_command(alloc, &text, seats, Format::Two),
        Some(b's') => of_script(alloc, &text, seats, Format::One),
        Some(b'S') => of_script(alloc, &text, seats, Format::Two),
        Some(b't') => of_transcript(alloc, &text, Format::One),
        Some(b'T') => of_transcript(alloc, &text, Format::Two),
        Some(b'j') => of_message(alloc, &text, Format::One),
        Some(b'J') => of_message(alloc, &text, Format::Two),
        _ => of_word(alloc, &text),
    };
    Some((wanted, told))
}

/// The outcome of a text that was read, and then written so.
fn told_back(written: &[u8], text: &[u8]) -> Told {
    if written == text { (0, 0) } else { (0, 101) }
}

fn told_of_error(error: ReadError) -> Told {
    match error {
        ReadError::Fault(fault) => (1, fault.code()),
        ReadError::NoMemory => (0, 100),
    }
}

fn told_of_lines(error: TranscriptError) -> Told {
    match error {
        TranscriptError::Fault { line, fault } => (line, fault.code()),
        TranscriptError::NoMemory => (0, 100),
    }
}

fn of_command(alloc: Global, line: &[u8], seats: u8, format: Format) -> Told {
    match read_command(alloc, line, seats, format) {
        Err(error) => told_of_error(error),
        Ok((seat, cmd)) => {
            let mut out = Vec::new(alloc);
            let _ = write_command(&mut out, seat, &cmd);
            told_back(&out, line)
        }
    }
}

fn of_script(alloc: Global, text: &[u8], seats: u8, format: Format) -> Told {
    match read_script(alloc, text, seats, format) {
        Err(error) => told_of_lines(error),
        Ok(calls) => {
            let mut out = Vec::new(alloc);
            for (seat, cmd) in &calls {
                let _ = write_command(&mut out, *seat, cmd);
            }
            told_back(&out, text)
        }
    }
}

fn of_transcript(alloc: Global, text: &[u8], format: Format) -> Told {
    match read_transcript(alloc, text, format) {
        Err(error) => told_of_lines(error),
        Ok(events) => told_of_events(alloc, &events, text, format),
    }
}

fn told_of_events(alloc: Global, events: &[Event], text: &[u8], format: Format) -> Told {
    let mut out = Vec::new(alloc);
    let mut echoed = Vec::new(alloc);
    let _ = out.extend_from_slice(format.header());
    let _ = echoed.extend_from_slice(format.header());
    for event in events {
        let _ = write_event(&mut out, event);
        let _ = echo(alloc, &mut echoed, event);
    }
    if echoed.as_slice() == text {
        told_back(&out, text)
    } else {
        (0, 102)
    }
}

/// Writes an event by the line of its command.
fn echo(alloc: Global, out: &mut Vec<u8>, event: &Event) -> Result<(), AllocError> {
    let mut line = Vec::new(alloc);
    write_command(&mut line, event.seat, &event.cmd)?;
    write_echo(out, &line, event)
}

pub(super) fn of_message(alloc: Global, line: &[u8], format: Format) -> Told {
    match read_message(alloc, line, format) {
        Err(MessageFault::NoMemory) => (0, 100),
        Err(fault) => (1, fault as u8),
        Ok(message) => match write_message(alloc, &message) {
            Ok(written) => told_back(&written, line),
            Err(_) => (0, 100),
        },
    }
}

fn of_word(alloc: Global, word: &[u8]) -> Told {
    match bytes_of(alloc, word) {
        Err(error) => told_of_error(error),
        Ok(spelled) => {
            let mut out = Vec::new(alloc);
            let _ = put_spelling(&mut out, spelled.bytes());
            told_back(&out, word)
        }
    }
}

/// Bytes as words, each with a space behind it.
pub(super) fn spelled(alloc: Global) -> Result<Vec<u8>, AllocError> {
    let mut out = Vec::new(alloc);
    for bytes in rows::BYTES {
        put_spelling(&mut out, bytes)?;
        out.push(b' ')?;
    }
    Ok(out)
}

/// Lines with keys in base64, behind what stands there.
pub(super) fn vectors(alloc: Global) -> Result<Vec<u8>, AllocError> {
    let mut out = Vec::from_slice(alloc, b"before ")?;
    for bytes in rows::KEYS {
        put_delete(alloc, &mut out, bytes)?;
    }
    Ok(out)
}

fn put_delete(alloc: Global, out: &mut Vec<u8>, key: &[u8]) -> Result<(), AllocError> {
    match delete_of(alloc, key) {
        Some(message) => write_message_line(out, &message),
        None => Ok(()),
    }
}

/// A delete of a key at 7.
fn delete_of(alloc: Global, bytes: &[u8]) -> Option<Message> {
    Some(Message::Row(Row {
        ts: Ts::new(7)?,
        key: Key::new(alloc, bytes).ok()?,
        after: None,
    }))
}
