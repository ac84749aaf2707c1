//! Calls whose answer is to find room. A look tells how far it would go, and the ordinary call is made, of a shorter span
//! or of fewer messages. The first row or message is told in any case, so whoever goes on where an answer ended gets on.
//!
//! ```text
//! what is asked                                          the keys are        the event that is made
//! Scan { 10, all keys, 2 rows, 99 bytes }                "a" "b" "c"         scan 10 - c      so the next one begins at c
//! Scan { 10, from "c", 2 rows, 99 bytes }                                    scan 10 c -      no bound: it has come to the end
//! Scan { 10, all keys, 2 rows, 9 bytes }                                     scan 10 - a%00   "a" alone, which has more bytes
//! Poll { feed 1, 9 messages, 40 bytes }                  3 of 20 bytes left  poll 1 2
//! Poll { feed 1, 9 messages, 19 bytes }                                      poll 1 1
//! ```
ghost use Rattle.std.specs.Prelude.{◌≡◌, ◌<◌, List, IfOk, OnErr, OnOk};
ghost use Rattle.embedded.specs.Prelude.{Event, poll_count};
ghost use Rattle.embedded.specs.Typed.{GetsOn, MadeWithin, command_within, span_within};
ghost use Rattle.embedded.specs.Embedded.{StandsFor, last_of};
ghost use Rattle.embedded.specs.declared.bounded.BoundedError.TheVariants.{NoMemory};

use crate::database::Database;
use spans::{Bound, Cmd, Span};
use std::alloc::AllocError;

/// A command whose answer is to find room.
#[derive(Drop)]
pub enum Bounded {
    /// A scan in a transaction, in so many rows and bytes.
    Scan {
        ts: u64,
        span: Span,
        rows: u64,
        bytes: u64,
    },
    /// A scan at a closed timestamp.
    ScanAt {
        t: u64,
        span: Span,
        rows: u64,
        bytes: u64,
    },
    /// A poll, in so many bytes.
    Poll {
        feed: u64,
        max: u64,
        bytes: u64,
    },
}

/// Why no call was made.
#[derive(Clone, Copy, Debug)]
pub enum BoundedError {
    /// The look ran out of memory.
    NoMemory,
    /// No position is left: the next one would be 18446744073709551615.
    NoPosition,
}

impl Database {
    /// Makes the call of a seat's command, 0 to 63, as far as its answer finds room. The event is that of an ordinary scan
    /// or poll. After an error all is as it was, the last text too.
    pub fn make_within(&mut self, seat: u8, bounded: Bounded) -> Result<(), BoundedError>
        requires seat { seat < 64 }
        ensures made { (h : List Event) → StandsFor self.old h → MadeWithin h seat bounded self.old result self.new }
        ensures gets_on { (h : List Event) → StandsFor self.old h → OnOk result (GetsOn bounded (last_of self.new)) }
        ensures same { OnErr result (self.new ≡ self.old) }
    {
        if self.is_spent() {
            return Err(BoundedError::NoPosition);
        }
        let Ok(cmd) = self.command_within(bounded) else {
            return Err(BoundedError::NoMemory);
        };
        self.make(seat, cmd).map_err(|_| BoundedError::NoPosition)
    }

    /// The command that is made.
    fn command_within(&self, bounded: Bounded) -> Result<Cmd, AllocError>
        ensures { (h : List Event) → StandsFor self.now h → IfOk result (λ cmd. cmd ≡ command_within h bounded) }
    {
        match bounded {
            Bounded::Scan {
                ts,
                span,
                rows,
                bytes,
            } => {
                let span = self.span_within(ts, span, rows, bytes)?;
                Ok(Cmd::Scan { ts, span })
            }
            Bounded::ScanAt {
                t,
                span,
                rows,
                bytes,
            } => {
                let span = self.span_within(t, span, rows, bytes)?;
                Ok(Cmd::ScanAt { t, span })
            }
            Bounded::Poll { feed, max, bytes } => {
                let count = self.engine.poll_count(feed, max, bytes)?;
                Ok(Cmd::Poll {
                    feed,
                    max: count.max(1).min(max),
                })
            }
        }
    }

    /// The longest beginning of a span of which a scan finds room; that of its first row, where that one finds none.
    fn span_within(&self, t: u64, mut span: Span, rows: u64, bytes: u64) -> Result<Span, AllocError>
        ensures { (h : List Event) → StandsFor self.now h → IfOk result (λ s. s ≡ span_within h t span rows bytes) }
    {
        let Some(end) = self.engine.scan_end(t, &span, rows, bytes) else {
            return Ok(span);
        };
        let behind = Bound::successor(self.alloc, end)?;
        span.hi = Some(Bound::of_key(end)?);
        // Without room for a row a scan ends at its first one.
        if self.engine.scan_end(t, &span, 0, 0).is_none() {
            span.hi = Some(behind);
        }
        Ok(span)
    }
}
