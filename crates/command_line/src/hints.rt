//! Hints for standard error: behind the sentence on a faulty line, its right form, its limits, or how its words are
//! spelled; and behind a refusal of words, how the input is given.

use crate::dialects::{Dialect, form_of, is_number, stranger};
use crate::input::Input;
use clap::Error;
use clap::error::ErrorKind;
use jobs::End;
use sessions::Source;
use std::alloc::Global;
use std::convert::AsStr;
use text_format::Format;
use word_lines::fault::LineFault;
use word_lines::words::check_words;

/// The hint behind the sentence of an end: that there was nothing to read, or what a faulty line should have been. A line
/// that stands behind what is kept of the input has none.
pub fn hint_at<S: Source>(
    end: End,
    input: &Input<S>,
    dialect: Dialect,
    format: Format,
) -> Option<&'static str> {
    match end {
        End::Done if input.is_empty() => Some("the input is empty"),
        End::Faulty { line, fault } => hint_for(input.line(line)?, fault, dialect, format),
        _ => None,
    }
}

/// The hint for a line, which stands here without its newline.
fn hint_for(
    line: &[u8],
    fault: LineFault,
    dialect: Dialect,
    format: Format,
) -> Option<&'static str> {
    Some(match fault {
        _ if line.first() == Some(&b'#') => "no line can be a comment",
        LineFault::WordCount if line.is_empty() => "no line can be empty",
        LineFault::WordCount if check_words(line).is_err() => {
            "one space stands between two words, and none at the line's ends"
        }
        LineFault::BadByte => spelling_of(line),
        LineFault::LineTooLong | LineFault::KeyLength | LineFault::ValueLength => {
            limits_of(dialect, format)
        }
        LineFault::Reply | LineFault::Follow | LineFault::NoNewline => return None,
        _ => return form_at(line, fault, dialect),
    })
}

/// The hint for a line that comes from elsewhere, or else the form that it should have.
fn form_at(line: &[u8], fault: LineFault, dialect: Dialect) -> Option<&'static str> {
    match stranger(line, dialect) {
        None => form_of(line, fault, dialect),
        told => told,
    }
}

/// How the bytes of a line are written, one of which isn't, or a word of which spells none.
fn spelling_of(line: &[u8]) -> &'static str {
    if line.last() == Some(&b'\r') {
        return "a line ends in a newline, without a carriage return";
    }
    match check_words(line) {
        Err(LineFault::BadByte) => {
            "a byte that isn't printable ASCII is written as % and two digits, as %09 for a tab"
        }
        _ => {
            "a word has %25 for %, %20 for a space, %2D for - alone, and other printable bytes as they are"
        }
    }
}

/// How long keys and values may be.
fn limits_of(dialect: Dialect, format: Format) -> &'static str {
    match (format, dialect) {
        (Format::One, Dialect::Script) => {
            "a key has 1 to 64 bytes, a value 1024 at most; with --format 2 a key has 1 to 256, a value 65536 at most"
        }
        (Format::One, Dialect::Transcript) => {
            "a key has 1 to 64 bytes, a value 1024 at most, unless the first line is `mvfeed 2`"
        }
        (Format::Two, _) => "a key has 1 to 256 bytes, a value 65536 at most",
    }
}

/// How the input is given, where words were refused because of one that seems to be a file: one that the command doesn't
/// take and that is no option, or one in place of a race's sessions.
pub fn hint_of<S: AsStr>(alloc: Global, refused: &Error, words: &[S]) -> Option<&'static str> {
    if is_for_file(alloc, refused) {
        form_with_file(words.get(1)?.as_str())
    } else {
        None
    }
}

/// How a command is given a file.
fn form_with_file(command: &str) -> Option<&'static str> {
    match command.as_bytes() {
        b"run" => Some("mvfeed run < FILE"),
        b"race" => Some("mvfeed race N < FILE"),
        b"check" => Some("mvfeed check < FILE"),
        b"state" => Some("mvfeed state < FILE"),
        b"dump" => Some("mvfeed dump < FILE"),
        b"follow" => Some("mvfeed follow --cursor T < FILE"),
        _ => None,
    }
}

/// Whether words were refused for one that seems to be a file.
fn is_for_file(alloc: Global, refused: &Error) -> bool {
    match format!(in alloc; "{refused}") {
        Ok(text) => word_in(refused.kind(), text.as_str()).is_some_and(is_file),
        Err(_) => false,
    }
}

/// The word that clap's text says to be refused.
fn word_in(kind: ErrorKind, text: &str) -> Option<&str> {
    let (word, _behind) = told_of(kind, text)?.split_once('\'')?;
    Some(word)
}

/// Clap's text from the word on that it refuses.
fn told_of(kind: ErrorKind, text: &str) -> Option<&str> {
    match kind {
        ErrorKind::UnknownArgument => text.strip_prefix("error: unexpected argument '"),
        ErrorKind::ValueValidation if text.contains("' for '<N>'") => {
            text.strip_prefix("error: invalid value '")
        }
        _ => None,
    }
}

/// Whether a word is neither an option nor a number: `-` is a file, to those who want standard input.
fn is_file(word: &str) -> bool {
    let is_option = word.starts_with('-') && word.len() > 1;
    !is_option && !word.is_empty() && !is_number(word.as_bytes())
}
