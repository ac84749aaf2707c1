//! What a command is answered.
ghost use Rattle.std.specs.Prelude.{◌≡◌};
ghost use Rattle.spans.specs.Parts.{answered_rows};

use crate::calls::messages::Messages;
use std::marker::Model;
use timestamps::{Key, Value};

/// The answer to a command.
#[derive(Debug)]
pub enum Reply {
    Started,
    Found(Option<Value>),
    Rows(Rows),
    Written,
    Committed {
        keys: u64,
    },
    Aborted,
    Closed {
        at: u64,
        aborted: u64,
    },
    Protected {
        id: u64,
    },
    Released,
    Collected {
        horizon: u64,
        removed: u64,
    },
    Opened {
        feed: u64,
    },
    Messages(Messages),
    Cancelled,
    Stats {
        versions: u64,
        undecided: u64,
        feeds: u64,
        closed: u64,
        horizon: u64,
    },
    Refused(Refusal),
}

// for the proof, which has no case for each kind of it where a reply is dropped
impl Drop for Reply {
    fn drop(self) {
        match self {
            Reply::Found(_) | Reply::Rows(_) | Reply::Messages(_) | Reply::Refused(_) => {}
            Reply::Started | Reply::Written | Reply::Aborted | Reply::Released => {}
            Reply::Committed { keys: _ } | Reply::Protected { id: _ } | Reply::Cancelled => {}
            Reply::Closed { at: _, aborted: _ } | Reply::Opened { feed: _ } => {}
            Reply::Collected {
                horizon: _,
                removed: _,
            } => {}
            Reply::Stats {
                versions: _,
                undecided: _,
                feeds: _,
                closed: _,
                horizon: _,
            } => {}
        }
    }
}

impl Reply {
    /// Its rows, if it has some.
    pub fn into_rows(self) -> Option<Rows>
        ensures { result ≡ answered_rows self }
    {
        match self {
            Reply::Rows(rows) => Some(rows),
            _ => None,
        }
    }
}

/// Why a command was refused. After every refusal but `TooLate` the database is as it was.
#[derive(Clone, Copy, Debug, PartialEq, Eq)]
pub enum Refusal {
    /// The transaction would begin at or below the closed timestamp.
    BelowClosed { closed: u64 },
    /// A transaction of this timestamp began before.
    TsUsed,
    /// The number is no timestamp.
    TsRange,
    /// The version to be read is another transaction's, which is undecided.
    Blocked { by: u64 },
    /// No transaction of this timestamp began.
    NoTxn,
    /// Another seat owns the transaction, or the feed.
    NotOwner,
    /// The transaction is decided, or its timestamp is closed.
    Ended,
    /// A later reader has read the version before this write. The transaction is aborted.
    TooLate,
    /// The timestamp isn't closed.
    NotClosed { closed: u64 },
    /// Versions at this timestamp may have been collected.
    BelowHorizon { horizon: u64 },
    /// No such protection stands.
    NoProtection,
    /// No such feed was opened.
    NoFeed,
    /// The feed was cancelled.
    FeedCancelled,
    /// A growth of memory was refused.
    NoMemory,
    /// The number is no gap between resolved messages.
    GapRange,
}

/// The keys that a scan found, rising, each with its value.
#[derive(Debug, Drop)]
pub struct Rows {
    pairs: Vec<(Key, Value)>,
}

impl Model for Rows {
    ghost use Rattle.std.specs.Prelude.{List, ℕ};

    ghost Value = { List (List ℕ × List ℕ) };

    ghost view = { λ r. r.pairs.items };
}

impl Rows {
    /// The rows of a list.
    pub fn from_vec(pairs: Vec<(Key, Value)>) -> Rows
        ensures { result ≡ pairs.items }
    {
        Rows { pairs }
    }

    /// The rows, lent.
    pub fn as_slice(&self) -> &[(Key, Value)]
        ensures { result.now ≡ self.now }
    {
        self.pairs.as_slice()
    }
}
