//! How far a scan finds room, how many messages of a feed, and whether an answer would be too long. A look takes no
//! position, and changes nothing.
//!
//! ```text
//! begin 10 by seat 0, put 10 a 1, put 10 b 2      each row has 19 bytes
//!
//! command         by seat   most   would be too long
//! scan 10 - -     0         38     no
//! scan 10 - -     0         37     yes
//! scan 10 - -     1         37     no: it is refused, because the transaction is another's
//! scanat 10 - -   0         37     no: it is refused, because 10 isn't closed
//! ```
ghost use Rattle.std.specs.Prelude.{List, IfOk, OnErr, is_some, true, ◌≡◌};
ghost use Rattle.std.specs.Option.{option_copied};
ghost use Rattle.engine.specs.Prelude.{Event, Poll, Scan, ScanAt, effects_of, place_of};
ghost use Rattle.engine.specs.Room.{IsOwnPoll, is_long, poll_count, scan_end};
ghost use Rattle.engine.specs.Engine.{StandsFor};

use crate::Engine;
use crate::layers::Layers;
use spans::{Cmd, Span};
use std::alloc::AllocError;
use timestamps::Key;

/// A scan of more rows is long, however few bytes they have, because its time goes with its rows.
pub const MOST_ROWS: u64 = 32_768;

impl Engine {
    /// The key at which a scan at `ts` ends, if its rows are to find room in `rows` rows and `bytes` bytes; none where
    /// all of the span does, or something stops the reader before. It takes no memory.
    pub fn scan_end<'a>(&'a self, ts: u64, span: &'a Span, rows: u64, bytes: u64) -> Option<&'a Key>
        ensures { (h : List Event) → StandsFor self.now h → option_copied result ≡ scan_end (effects_of h) ts span.now rows bytes }
    {
        self.layers.rules.end_within(ts, span, rows, bytes)
    }

    /// How many of a feed's next messages, at most `max`, find room in `bytes` bytes: `max` where all of them do, and 0
    /// where it doesn't live. It takes memory for the messages that it looks at.
    pub fn poll_count(&self, feed: u64, max: u64, bytes: u64) -> Result<u64, AllocError>
        ensures count { (h : List Event) → StandsFor self.now h → IfOk result (λ n. n ≡ poll_count (effects_of h) feed max bytes) }
        ensures memory { (h : List Event) → StandsFor self.now h → OnErr result (is_some (place_of (effects_of h) feed) ≡ true) }
    {
        let Layers { rules, feeds } = &self.layers;
        feeds.count_within(rules.versions(), feed, rules.closed(), max, bytes)
    }

    /// Whether the answer to a seat's command would have more than `most` bytes of rows or messages, or a scan's more
    /// than [`MOST_ROWS`] rows. What would be refused has none. A scan that an undecided version blocks has the rows
    /// before that one. Only the look at a poll of the seat's own feed takes memory.
    pub fn is_long(&self, seat: u8, cmd: &Cmd, most: u64) -> Result<bool, AllocError>
        ensures long { (h : List Event) → StandsFor self.now h → IfOk result (λ long. long ≡ is_long (effects_of h) seat most cmd.now) }
        ensures memory { (h : List Event) → StandsFor self.now h → OnErr result (IsOwnPoll (effects_of h) seat cmd.now) }
    {
        match cmd {
            Cmd::Scan { ts, span } => Ok(
                self.layers.rules.is_usable(seat, *ts)
                    && self.scan_end(*ts, span, MOST_ROWS, most).is_some(),
            ),
            Cmd::ScanAt { t, span } => Ok(
                self.layers.rules.is_readable(*t)
                    && self.scan_end(*t, span, MOST_ROWS, most).is_some(),
            ),
            Cmd::Poll { feed, max } if self.layers.feeds.seat(*feed) == Some(seat) => {
                Ok(self.poll_count(*feed, *max, most)? < *max)
            }
            _ => Ok(false),
        }
    }
}
