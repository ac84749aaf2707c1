//! Why a line is no message.
use thiserror::Error;

/// A part of a line that was read, or why it is no message.
pub(crate) type Read<T> = Result<T, MessageFault>;

/// The first test that a line doesn't pass, or out of memory.
#[derive(Clone, Copy, Debug, PartialEq, Eq, Error)]
pub enum MessageFault {
    /// The line is no JSON.
    #[error("notjson")]
    NotJson = 1,
    /// The JSON isn't of a message's form, or isn't written as a message's line is.
    #[error("shape")]
    Shape = 2,
    /// A timestamp isn't a number word from 1 to 9223372036854775807.
    #[error("number")]
    Number = 3,
    /// A key or a value isn't the base64 of any bytes.
    #[error("base64")]
    Base64 = 4,
    /// A key has no byte, or a key or a value is longer than the format lets it be.
    #[error("length")]
    Length = 5,
    /// A growth of memory was refused.
    #[error("nomemory")]
    NoMemory = 6,
}
