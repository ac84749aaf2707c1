//! The line that ends an output, with its room made before any line is read. So a faulty line, or spent positions, are
//! told without wanting memory.
ghost use Rattle.std.specs.Prelude.{◌≡◌, ◌+◌, ◌++◌, ◌<◌, ◌≤◌, [], vec_len, vec_capacity, OnOk, OnErr};
ghost use Rattle.sessions.specs.Runs.{last_line};

use crate::ending::ServeEnd;
use std::alloc::{AllocError, Global};
use word_lines::events::{LAST_LINE, write_fault, write_spent};

/// Room for the line that ends an output.
#[derive(Drop)]
pub(crate) struct LastLine {
    bytes: Vec<u8>,
    ghost empty: { bytes.items ≡ [] },
    ghost room: { 64 ≤ vec_capacity bytes },
}

impl LastLine {
    pub(crate) fn new(alloc: Global) -> Result<LastLine, AllocError> {
        let bytes = Vec::with_capacity(alloc, LAST_LINE)?;
        Ok(LastLine { bytes })
    }

    /// The line of a run's end, or nothing where that end has none.
    pub(crate) fn of(self, end: ServeEnd) -> Vec<u8>
        ensures { result.items ≡ last_line end }
    {
        let LastLine { mut bytes } = self;
        let written = match end {
            ServeEnd::Fault { line, fault } => write_fault(&mut bytes, line, fault),
            ServeEnd::Spent { line } => write_spent(&mut bytes, line),
            _ => return bytes,
        };
        let Ok(()) = written else { unreachable!() };
        bytes
    }
}
