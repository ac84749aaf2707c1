//! Why a line can't be followed.
ghost use Rattle.std.specs.Prelude.{◌≡◌, ◌≢◌};
ghost use Rattle.follow.specs.declared.fault.FollowError.TheVariants.{NoMemory};
ghost use Rattle.follow.specs.Following.{code_of, error_of_line, error_of_message, error_of_replica, name_of};

use json_lines::MessageFault;
use replica::Fault;
use std::alloc::AllocError;
use word_lines::fault::LineFault;

/// A fault of a line, or of its message after those before it.
#[derive(Clone, Copy, Debug, PartialEq, Eq)]
pub enum FollowFault {
    /// The line is no JSON.
    NotJson = 1,
    /// The JSON isn't of a message's form, or isn't written as a message's line is.
    Shape = 2,
    /// A timestamp is no number word in range.
    Number = 3,
    /// A key or a value isn't the base64 of any bytes.
    Base64 = 4,
    /// A key or a value has too many bytes, or a key none.
    Length = 5,
    /// The line doesn't end in a newline.
    NoNewline = 7,
    /// More bytes than the format lets a line have stand before the newline.
    LineTooLong = 8,
    /// A row is at or below what was resolved last, or doesn't come after the row before it.
    NotAfter = 21,
    /// A key lies outside the span.
    OutsideSpan = 22,
    /// A resolved timestamp is at or below what was resolved last, or below the row before it.
    ResolvedBack = 23,
}

impl FollowFault {
    /// Its number.
    pub fn code(self) -> u8
        ensures { result ≡ code_of self }
    {
        self as u8
    }

    /// Its name, as it stands in a fault's line.
    pub fn name(self) -> &'static str
        ensures { result.now ≡ name_of self }
    {
        match self {
            FollowFault::NotJson => "notjson",
            FollowFault::Shape => "shape",
            FollowFault::Number => "number",
            FollowFault::Base64 => "base64",
            FollowFault::Length => "length",
            FollowFault::NoNewline => "nonewline",
            FollowFault::LineTooLong => "linetoolong",
            FollowFault::NotAfter => "notafter",
            FollowFault::OutsideSpan => "outsidespan",
            FollowFault::ResolvedBack => "resolvedback",
        }
    }
}

/// Why a line was not taken.
#[derive(Clone, Copy, PartialEq, Eq)]
pub(crate) enum FollowError {
    /// It is faulty.
    Fault(FollowFault),
    /// A growth of memory was refused.
    NoMemory,
}

impl From<AllocError> for FollowError {
    ghost from_gives = { λ _ error. error ≡ NoMemory };

    fn from(_refused: AllocError) -> FollowError {
        FollowError::NoMemory
    }
}

/// Why a line was not taken whose length or end is wrong.
pub(crate) fn of_line(fault: LineFault) -> FollowError
    ensures same { result ≡ error_of_line fault }
    // A line's length and end are looked at without memory.
    ensures faulty { result ≢ NoMemory }
{
    match fault {
        LineFault::LineTooLong => FollowError::Fault(FollowFault::LineTooLong),
        // a line has no other fault before its words are read
        _ => FollowError::Fault(FollowFault::NoNewline),
    }
}

/// Why a line was not taken that is no message.
pub(crate) fn of_message(fault: MessageFault) -> FollowError
    ensures { result ≡ error_of_message fault }
{
    match fault {
        MessageFault::NotJson => FollowError::Fault(FollowFault::NotJson),
        MessageFault::Shape => FollowError::Fault(FollowFault::Shape),
        MessageFault::Number => FollowError::Fault(FollowFault::Number),
        MessageFault::Base64 => FollowError::Fault(FollowFault::Base64),
        MessageFault::Length => FollowError::Fault(FollowFault::Length),
        MessageFault::NoMemory => FollowError::NoMemory,
    }
}

/// Why a line was not taken whose message a replica refused.
pub(crate) fn of_replica(fault: Fault) -> FollowError
    ensures { result ≡ error_of_replica fault }
{
    match fault {
        Fault::NotAfter => FollowError::Fault(FollowFault::NotAfter),
        Fault::OutsideSpan => FollowError::Fault(FollowFault::OutsideSpan),
        Fault::ResolvedBack => FollowError::Fault(FollowFault::ResolvedBack),
        Fault::NoMemory => FollowError::NoMemory,
    }
}
