//! The checker's openings, polls and cancels of feeds, and the rows that a feed was not told.
ghost use Rattle.std.specs.Prelude.{◌≡◌, ◌≤◌, IfOk, OnErr, OnOk, length, map, suc, take, true, ℕ};
ghost use Rattle.std.specs.Option.{option_copied};
ghost use Rattle.plain_database.specs.Prelude.{pair_row, Cancel, MAX, Opened, Poll, feeds_opened, is_accepted, is_gap, kind_of, open_cmd, opening_answer};
ghost use Rattle.plain_database.specs.Tied.{Accepts, AfterCounted, Answers, Records, any_seat};
ghost use Rattle.plain_database.specs.Replies.{rows_past};
ghost use Rattle.plain_database.specs.Streams.{AreLeft, IsInSnapshot};
ghost use Rattle.plain_database.specs.VersionsTied.{Says};

use crate::Allocated;
use crate::database::PlainDatabase;
use crate::feeds::place::Place;
use crate::feeds::record::FeedRecord;
use spans::{Kind, Refusal, Reply, Span};
use std::alloc::{AllocError, Global};
use timestamps::ts::MAX;
use timestamps::{Key, Row, Ts, Value};

impl PlainDatabase {
    /// The answer to an opening of a feed of this kind: its tests in order.
    #[tactic(auto, using(spans::proofs::Histories::opened_at_most, spans::proofs::Histories::effect_count))]
    pub(crate) fn answer_open(&self, initial: bool, gap: Option<u64>, cursor: u64) -> Reply
        ensures { AfterCounted self.now (λ p. result ≡ opening_answer (kind_of initial gap) p cursor) }
    {
        let (closed, horizon) = (self.versions.closed(), self.horizon);
        if cursor > MAX {
            return Reply::Refused(Refusal::TsRange);
        }
        if !is_gap(gap) {
            return Reply::Refused(Refusal::GapRange);
        }
        if cursor < horizon {
            return Reply::Refused(Refusal::BelowHorizon { horizon });
        }
        // what an initial feed tells first is read at its cursor
        if initial && cursor > closed {
            return Reply::Refused(Refusal::NotClosed { closed });
        }
        // no more were opened than there were commands, so a number is left
        let feed = self.feeds.opened().saturating_add(1);
        Reply::Opened { feed }
    }

    pub(crate) fn record_open(
        &mut self,
        seat: u8,
        initial: bool,
        gap: Option<u64>,
        span: &Span,
        cursor: u64,
        reply: &Reply,
    ) -> Allocated<()>
        ensures ok { OnOk result (Records self.old seat (open_cmd (kind_of initial gap) span.now cursor) reply.now self.new) }
        ensures err { OnErr result (self.new ≡ self.old) }
        ensures memory { OnErr result (is_accepted reply.now ≡ true) }
    {
        let Reply::Opened { .. } = reply else {
            return Ok(());
        };
        if self.feeds.opened() == u64::MAX {
            return Err(AllocError);
        }
        let kind = Kind { initial, gap };
        let _feed = self.feeds.open(seat, kind, span, cursor)?;
        Ok(())
    }

    #[tactic(auto, using(spans::proofs::Legal::legal_allowed, crate::proofs::ClosedRange::closed_in_range))]
    pub(crate) fn answer_poll(&self, seat: u8, feed: u64, max: u64) -> Allocated<Reply>
        ensures answer { IfOk result (λ reply. Answers self.now seat (Poll feed max) reply) }
        ensures memory { OnErr result (Accepts self.now seat (Poll feed max)) }
    {
        let record = match self.feeds.find(feed, seat) {
            Ok(record) => record,
            Err(refusal) => return Ok(Reply::Refused(refusal)),
        };
        let rows = self.rows_left(record, max)?;
        let closed = self.versions.closed().min(MAX);
        let messages = record.next_messages(self.alloc, max, closed, rows)?;
        Ok(Reply::Messages(messages))
    }

    /// The feed was told the messages of the reply.
    pub(crate) fn record_poll(&mut self, feed: u64, reply: &Reply) -> Allocated<()>
        ensures ok { OnOk result ((seat max : ℕ) → Records self.old seat (Poll feed max) reply.now self.new) }
        ensures err { OnErr result (self.new ≡ self.old) }
        ensures memory { OnErr result (is_accepted reply.now ≡ true) }
    {
        match reply {
            Reply::Messages(messages) => self.feeds.tell(feed, messages),
            _ => Ok(()),
        }
    }

    pub(crate) fn answer_cancel(&self, feed: u64) -> Reply
        ensures { Answers self.now any_seat (Cancel feed) result }
    {
        match self.feeds.find_live(feed) {
            Ok(_) => Reply::Cancelled,
            Err(refusal) => Reply::Refused(refusal),
        }
    }

    #[tactic(auto, using(spans::proofs::Legal::legal_allowed))]
    pub(crate) fn record_cancel(&mut self, feed: u64, reply: &Reply)
        ensures { (seat : ℕ) → Records self.old seat (Cancel feed) reply.now self.new }
    {
        if let Reply::Cancelled = reply {
            self.feeds.cancel(feed);
        }
    }

    /// The first `max` rows that a feed was not told, of its list at or below closed.
    #[tactic(auto, using(spans::proofs::Legal::legal_allowed, crate::proofs::LeftRows::nothing_left, crate::proofs::LeftRows::untold_stream))]
    pub(crate) fn rows_left(&self, feed: &FeedRecord, max: u64) -> Allocated<Vec<Row>>
        ensures few { IfOk result (λ rows. length rows.items ≤ max) }
        ensures left { IfOk result (λ rows. AreLeft self.now feed.now max rows.items) }
    {
        let versions = &self.versions;
        let Some(closed) = Ts::new(versions.closed()) else {
            // nothing is closed, so nothing can be told
            return Ok(Vec::new(self.alloc));
        };
        match feed.place() {
            Place::Snapshot { after } => self.rows_from_snapshot(feed, after, closed, max),
            Place::Stream { ts, after } => {
                versions.rows_after(self.alloc, &feed.span, ts, after, closed, max)
            }
        }
    }

    /// The same, of a feed whose place is in the snapshot at its cursor.
    #[tactic(auto, using(spans::proofs::Legal::legal_allowed, crate::proofs::ClosedRange::closed_in_range, crate::proofs::LeftRows::snapshot_taken))]
    fn rows_from_snapshot(
        &self,
        feed: &FeedRecord,
        after: Option<&Key>,
        closed: Ts,
        max: u64,
    ) -> Allocated<Vec<Row>>
        requires closed { closed ≡ self.now.versions.closed }
        requires snapshot { IsInSnapshot feed.now (option_copied after) }
        ensures few { IfOk result (λ rows. length rows.items ≤ max) }
        ensures left { IfOk result (λ rows. AreLeft self.now feed.now max rows.items) }
    {
        let mut rows = self.snapshot_after(feed, after, max)?;
        let versions = &self.versions;
        let span = &feed.span;
        let room = max - rows.len() as u64;
        let mut stream = versions.rows_after(self.alloc, span, feed.cursor, None, closed, room)?;
        rows.append(&mut stream)?;
        Ok(rows)
    }

    /// The first `max` rows of the snapshot at a feed's cursor, behind a key.
    #[tactic(auto, using(crate::proofs::LeftRows::taken))]
    fn snapshot_after(
        &self,
        feed: &FeedRecord,
        after: Option<&Key>,
        max: u64,
    ) -> Allocated<Vec<Row>>
        ensures few { IfOk result (λ rows. length rows.items ≤ max) }
        ensures rows { IfOk result (λ rows. feed.now.cursor ≤ MAX → Says self.now.versions (λ p. rows.items
            ≡ take max (map (pair_row feed.now.cursor) (rows_past p feed.now.span (option_copied after.entry) feed.now.cursor)))) }
    {
        let versions = &self.versions;
        let Some(cursor) = Ts::new(feed.cursor) else {
            // nothing is committed there
            return Ok(Vec::new(self.alloc));
        };
        let pairs = versions.pairs(self.alloc, &feed.span, after, feed.cursor, max)?;
        pair_rows(self.alloc, cursor, pairs)
    }
}

/// Whether a gap, where there is one, is in the range of timestamps.
fn is_gap(gap: Option<u64>) -> bool
    ensures { result ≡ is_gap gap }
{
    gap.is_none_or(|gap| gap > 0 && gap <= MAX)
}

/// Keys and values, as rows of a timestamp.
fn pair_rows(alloc: Global, ts: Ts, pairs: Vec<(Key, Value)>) -> Allocated<Vec<Row>>
    ensures { IfOk result (λ rows. rows.items ≡ map (pair_row ts) pairs.items) }
{
    let rows = pairs.into_iter().map(|(key, value)| Row {
        ts,
        key,
        after: Some(value),
    });
    rows.collect(alloc)
}
