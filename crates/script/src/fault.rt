//! Why a text of many lines was not read.
ghost use Rattle.std.specs.Prelude.{◌≡◌};
ghost use Rattle.script.specs.declared.fault.TranscriptError.TheVariants.{NoMemory};
ghost use Rattle.script.specs.Transcripts.{error_at_line};

use std::alloc::{AllocError, AllocFailed};
use thiserror::Error;
use word_lines::fault::{LineFault, ReadError};

/// Why a text of many lines, a script or a transcript, was not read.
#[derive(Clone, Copy, Debug, PartialEq, Eq, Error)]
pub enum TranscriptError {
    /// A line is faulty. Lines are counted from 1.
    #[error("{line}: {fault}")]
    Fault { line: u64, fault: LineFault },
    /// A growth of memory was refused.
    #[error("nomemory")]
    NoMemory,
}

/// A part of such a text that was taken, or why it wasn't.
pub(crate) type Taken<T> = Result<T, TranscriptError>;

impl TranscriptError {
    /// The fault of the line of this number.
    pub(crate) fn at_line(line: u64, error: ReadError) -> TranscriptError
        ensures { result ≡ error_at_line line error }
    {
        match error {
            ReadError::Fault(fault) => TranscriptError::Fault { line, fault },
            ReadError::NoMemory => TranscriptError::NoMemory,
        }
    }
}

impl From<AllocError> for TranscriptError {
    ghost from_gives = { λ _ e. e ≡ NoMemory };

    fn from(_e: AllocError) -> TranscriptError {
        TranscriptError::NoMemory
    }
}

impl<T: Drop> From<AllocFailed<T>> for TranscriptError {
    ghost from_gives = { λ _ e. e ≡ NoMemory };

    fn from(_e: AllocFailed<T>) -> TranscriptError {
        TranscriptError::NoMemory
    }
}
