//! What a session asks for.
ghost use Rattle.std.specs.Prelude.{◌≡◌};
ghost use Rattle.spans.specs.Parts.{asked_span};

use crate::span::Span;
use timestamps::{Key, Value};

/// A command. A number may be any `u64`; the database answers one that it can't take with a
/// [`Refusal`](crate::calls::Refusal).
#[derive(Debug, PartialEq, Eq)]
pub enum Cmd {
    /// Begins the transaction of this timestamp.
    Begin { ts: u64 },
    /// Reads a key in a transaction.
    Get { ts: u64, key: Key },
    /// Reads every key of a span in a transaction.
    Scan { ts: u64, span: Span },
    /// Writes a value in a transaction.
    Put { ts: u64, key: Key, value: Value },
    /// Deletes a key in a transaction.
    Del { ts: u64, key: Key },
    /// Commits a transaction.
    Commit { ts: u64 },
    /// Aborts a transaction.
    Abort { ts: u64 },
    /// Moves the closed timestamp up to `to`, or to just below the oldest undecided transaction.
    Close { to: u64 },
    /// Aborts what is undecided at or below `to`, and moves the closed timestamp up to `to`.
    CloseHard { to: u64 },
    /// Reads the committed value of a key at a closed timestamp.
    ReadAt { t: u64, key: Key },
    /// Reads the committed values of a span at a closed timestamp.
    ScanAt { t: u64, span: Span },
    /// Keeps the versions that a read at `t` wants from being collected.
    Protect { t: u64 },
    /// Ends a protection.
    Release { id: u64 },
    /// Drops dead versions, up to `to` at most.
    Collect { to: u64 },
    /// Opens a feed of the versions of a span above a timestamp.
    Open { span: Span, cursor: u64 },
    /// Opens a feed that tells what a span holds at a closed timestamp, and then the versions above it.
    OpenInitial { span: Span, cursor: u64 },
    /// Opens a feed of the versions of a span above a timestamp, whose resolved messages lie at least a gap apart.
    OpenEvery { span: Span, cursor: u64, gap: u64 },
    /// Opens a feed as `OpenInitial` does, whose resolved messages lie at least a gap apart.
    OpenInitialEvery { span: Span, cursor: u64, gap: u64 },
    /// Takes the next messages of a feed, at most `max`.
    Poll { feed: u64, max: u64 },
    /// Ends a feed, from any seat.
    Cancel { feed: u64 },
    /// Counts what the database holds.
    Stats,
}

// for the proof, which has no case for each kind of it where a command is dropped
impl Drop for Cmd {
    fn drop(self) {
        match self {
            Cmd::Begin { ts: _ } | Cmd::Commit { ts: _ } | Cmd::Abort { ts: _ } | Cmd::Stats => {}
            Cmd::Close { to: _ } | Cmd::CloseHard { to: _ } | Cmd::Collect { to: _ } => {}
            Cmd::Protect { t: _ } | Cmd::Release { id: _ } | Cmd::Cancel { feed: _ } => {}
            Cmd::Get { ts: _, key: _ } | Cmd::Del { ts: _, key: _ } => {}
            Cmd::ReadAt { t: _, key: _ } | Cmd::Poll { feed: _, max: _ } => {}
            Cmd::Scan { ts: _, span: _ } | Cmd::ScanAt { t: _, span: _ } => {}
            Cmd::Open { span: _, cursor: _ } | Cmd::OpenInitial { span: _, cursor: _ } => {}
            Cmd::Put {
                ts: _,
                key: _,
                value: _,
            } => {}
            Cmd::OpenEvery {
                span: _,
                cursor: _,
                gap: _,
            } => {}
            Cmd::OpenInitialEvery {
                span: _,
                cursor: _,
                gap: _,
            } => {}
        }
    }
}

impl Cmd {
    /// Its span, if it has one.
    pub fn into_span(self) -> Option<Span>
        ensures { result ≡ asked_span self }
    {
        match self {
            Cmd::Scan { ts: _, span }
            | Cmd::ScanAt { t: _, span }
            | Cmd::Open { span, cursor: _ }
            | Cmd::OpenInitial { span, cursor: _ }
            | Cmd::OpenEvery {
                span,
                cursor: _,
                gap: _,
            }
            | Cmd::OpenInitialEvery {
                span,
                cursor: _,
                gap: _,
            } => Some(span),
            _ => None,
        }
    }
}
