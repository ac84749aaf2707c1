//! How a run ends.
ghost use Rattle.std.specs.Prelude.{◌≡◌};
ghost use Rattle.sessions.specs.declared.ending.ServeEnd.TheVariants as end;

use crate::devices::{ReadFailed, WriteFailed};
use shared_db::OpenError;
use std::alloc::AllocError;
use word_lines::fault::LineFault;

/// Why a run came to its end. Lines are counted from 1.
#[derive(Clone, Copy, Debug, PartialEq, Eq)]
pub enum ServeEnd {
    /// All of the input was taken, and all of the output written.
    Done,
    /// A line of the input is faulty. The output says which, as its last line.
    Fault { line: u64, fault: LineFault },
    /// No position is left for another call. The output says at which line, as its last line.
    Spent { line: u64 },
    /// The database was not opened. Nothing was read or written.
    Open(OpenError),
    /// The input could not be read to its end.
    Input,
    /// The output could not be written.
    Output,
    /// A growth of memory was refused: at the start, once the database was open and before anything was read; for the
    /// key, the value or the span of the next line's command; or for the text of the latest event, which isn't written.
    Memory,
}

impl From<AllocError> for ServeEnd {
    ghost from_gives = { λ _ e. e ≡ end.Memory };

    fn from(_failed: AllocError) -> ServeEnd {
        ServeEnd::Memory
    }
}

impl From<OpenError> for ServeEnd {
    ghost from_gives = { λ reason e. e ≡ end.Open reason };

    fn from(refused: OpenError) -> ServeEnd {
        ServeEnd::Open(refused)
    }
}

impl From<ReadFailed> for ServeEnd {
    ghost from_gives = { λ _ e. e ≡ end.Input };

    fn from(_failed: ReadFailed) -> ServeEnd {
        ServeEnd::Input
    }
}

impl From<WriteFailed> for ServeEnd {
    ghost from_gives = { λ _ e. e ≡ end.Output };

    fn from(_failed: WriteFailed) -> ServeEnd {
        ServeEnd::Output
    }
}
