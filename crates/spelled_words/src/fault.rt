//! What is wrong with a line.
ghost use Rattle.std.specs.Prelude.{◌≡◌};
ghost use Rattle.spelled_words.specs.declared.fault.ReadError.TheVariants.{Fault, NoMemory};
ghost use Rattle.spelled_words.specs.Faults.{code_of, name_of};

use std::alloc::{AllocError, AllocFailed};
use thiserror::Error;

/// The first test that a line doesn't pass.
#[derive(Clone, Copy, Debug, PartialEq, Eq, Error)]
pub enum LineFault {
    /// The line is empty, has an empty word, or has too few or too many words.
    #[error("wordcount")]
    WordCount = 1,
    /// No command has this name.
    #[error("unknowncommand")]
    UnknownCommand = 2,
    /// No number word stands where a number belongs.
    #[error("number")]
    Number = 3,
    /// A key has no byte, or a key or a bound is longer than the format lets it be.
    #[error("keylength")]
    KeyLength = 4,
    /// A value is longer than the format lets it be.
    #[error("valuelength")]
    ValueLength = 5,
    /// The session is no number word below the number of seats.
    #[error("session")]
    Session = 6,
    /// The line doesn't end in a newline.
    #[error("nonewline")]
    NoNewline = 7,
    /// More bytes than the format lets a line have stand before the newline.
    #[error("linetoolong")]
    LineTooLong = 8,
    /// A byte is no printable ASCII, or a word isn't the spelling of any bytes.
    #[error("badbyte")]
    BadByte = 9,
    /// The words after `=>` are no reply.
    #[error("reply")]
    Reply = 10,
    /// A line that has to follow a reply isn't there or isn't of its form.
    #[error("follow")]
    Follow = 11,
}

impl LineFault {
    /// Its number, from 1 to 11.
    pub fn code(self) -> u8
        ensures { result ≡ code_of self }
    {
        self as u8
    }

    /// Its name, as it stands in a fault's line.
    pub fn name(self) -> &'static str
        ensures { result.now ≡ name_of self }
    {
        match self {
            LineFault::WordCount => "wordcount",
            LineFault::UnknownCommand => "unknowncommand",
            LineFault::Number => "number",
            LineFault::KeyLength => "keylength",
            LineFault::ValueLength => "valuelength",
            LineFault::Session => "session",
            LineFault::NoNewline => "nonewline",
            LineFault::LineTooLong => "linetoolong",
            LineFault::BadByte => "badbyte",
            LineFault::Reply => "reply",
            LineFault::Follow => "follow",
        }
    }
}

/// Why a text was not read.
#[derive(Clone, Copy, Debug, PartialEq, Eq, Error)]
pub enum ReadError {
    /// The text is faulty.
    #[error("{0}")]
    Fault(LineFault),
    /// A growth of memory was refused.
    #[error("nomemory")]
    NoMemory,
}

/// A part of a text that was read, or why it wasn't.
pub type Parsed<T> = Result<T, ReadError>;

impl From<LineFault> for ReadError {
    ghost from_gives = { λ fault e. e ≡ Fault fault };

    fn from(fault: LineFault) -> ReadError {
        ReadError::Fault(fault)
    }
}

impl From<AllocError> for ReadError {
    ghost from_gives = { λ _ e. e ≡ NoMemory };

    fn from(_e: AllocError) -> ReadError {
        ReadError::NoMemory
    }
}

impl<T: Drop> From<AllocFailed<T>> for ReadError {
    ghost from_gives = { λ _ e. e ≡ NoMemory };

    fn from(_e: AllocFailed<T>) -> ReadError {
        ReadError::NoMemory
    }
}
