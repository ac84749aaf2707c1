//! What is followed, and what is told of it.

use spans::Span;
use text_format::Format;
use timestamps::{Key, Value};

/// The feed that is followed, and how much is told of it.
#[derive(Debug, Drop, PartialEq, Eq)]
pub struct FollowOptions {
    /// The span of the feed.
    pub span: Span,
    /// The rows at first.
    pub start: Start,
    /// The feed whose polls' messages are taken, or none where each message is.
    pub feed: Option<u64>,
    /// How much is told of the rows.
    pub shown: Shown,
    /// Whether completeness is told between resolved messages too.
    pub complete: bool,
    /// In which format the messages are read.
    pub format: Format,
}

/// How much is told of the rows when they are complete.
#[derive(Clone, Copy, Debug, PartialEq, Eq)]
pub enum Shown {
    /// How many there are.
    Count,
    /// Each row too.
    Rows,
    /// Each key too that rows named since then, with its value where it has one.
    Changes,
}

/// With what the rows begin.
#[derive(Debug, Drop, PartialEq, Eq)]
pub enum Start {
    /// No rows at a cursor, for a feed that was opened there.
    Cursor(u64),
    /// Nothing yet, for an initial feed that was opened at this cursor: it tells the rows there.
    Initial(u64),
    /// These rows at a cursor, as a scan found them there.
    Seed {
        cursor: u64,
        rows: Vec<(Key, Value)>,
    },
}
