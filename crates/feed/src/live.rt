//! One feed that lives: its place, and its next rows, which it reads in the store.
ghost use Rattle.std.specs.Prelude.{◌≡◌, ◌≤◌, IfOk, MatchOption, max, ◌&&◌, nat_lt};
ghost use Rattle.feed.specs.Prelude.{MAX, Row, is_after_name, place_floor, row_floor};
ghost use Rattle.std.specs.Option.{option_copied};
ghost use Rattle.version_chain.specs.Walking.{is_after_place};
ghost use Rattle.feed.specs.Standing.{AreNextAt, opened_at, arrived_at, due_in, due_at, row_or};
ghost use Rattle.feed.specs.Left.{AreNextFirstsAt, AreNextStoredAt, IsLeftAt, IsNoneLeft, is_row_above, key_at};

mod report;
pub(crate) mod telling;

use crate::place::{Arrival, RowName};
use catch_up::next_snapshot;
use spans::{Kind, Span};
use std::alloc::{AllocError, Global};
use std::marker::Model;
use timestamps::{Key, Row, Ts};
use version_chain::Store;

/// A feed with its place.
#[derive(Drop)]
pub(crate) struct LiveFeed {
    seat: u8,
    kind: Kind,
    span: Span,
    cursor: u64,
    after: u64,
    row: Option<RowName>,
}

impl Model for LiveFeed {
    ghost use Rattle.std.specs.Prelude.{◌≤◌};
    ghost use Rattle.timestamps.specs.declared.ts.TheConstants.{MAX};
    ghost use Rattle.spans.specs.Kept.{Place};

    ghost Value = { Place };

    ghost view = { λ f. record { seat = f.seat; kind = f.kind; span = f.span; cursor = f.cursor; after = f.after; row = f.row } };

    ghost invariant = { λ f. f.cursor ≤ MAX };
}

impl LiveFeed {
    /// A feed at its cursor.
    pub(crate) fn open(
        seat: u8,
        kind: Kind,
        span: &Span,
        cursor: u64,
    ) -> Result<LiveFeed, AllocError>
        requires { cursor ≤ MAX }
        ensures { IfOk result (λ f. f ≡ opened_at seat kind span.now cursor) }
    {
        let span = span.copy()?;
        Ok(LiveFeed {
            seat,
            kind,
            span,
            cursor,
            after: kind.start(cursor),
            row: None,
        })
    }

    /// Whose it is.
    pub(crate) fn seat(&self) -> u8
        ensures { result ≡ self.now.seat }
    {
        self.seat
    }

    /// Up to where all is told.
    pub(crate) fn floor(&self) -> u64
        ensures { result ≡ place_floor self.now }
    {
        self.cursor.max(told_through(self.after, &self.row))
    }

    /// Up to where all is told at a place behind messages.
    pub(crate) fn floor_at(&self, place: &Arrival) -> u64
        ensures { result ≡ place_floor (record self.now { after = place.now.after; row = row_or place.now.row self.now.row }) }
    {
        let row = match &place.row {
            None => &self.row,
            Some(_) => &place.row,
        };
        self.cursor.max(told_through(place.after, row))
    }

    /// The timestamp of the resolved message that is due, if one is.
    pub(crate) fn due(&self, closed: u64) -> Option<Ts>
        requires { closed ≤ MAX }
        ensures { due_in self.now closed ≡ due_at result }
    {
        if self.kind.is_due(self.after, closed) {
            return Ts::new(closed);
        }
        None
    }

    /// Goes to a place behind messages.
    pub(crate) fn arrive(&mut self, place: Arrival)
        ensures { self.new ≡ arrived_at place.after place.row self.old }
    {
        self.after = place.after;
        let Some(row) = place.row else {
            return;
        };
        self.row = Some(row);
    }

    /// Its next rows, at most `n`: what an initial feed has left of its snapshot, and as
    /// many stored rows as those leave room for.
    pub(crate) fn next_rows(
        &self,
        alloc: Global,
        store: &Store,
        closed: u64,
        n: u64,
    ) -> Result<Vec<Row>, AllocError>
        ensures { IfOk result (λ rows. AreNextAt store.now self.now closed n rows.items) }
    {
        let mut rows = self.snapshot_rows(alloc, store, n)?;
        let room = n.saturating_sub(rows.len() as u64);
        let mut stored = self.stored_rows(alloc, store, closed, room)?;
        rows.append(&mut stored)?;
        Ok(rows)
    }

    /// The first `n` rows that are left of its snapshot, where it tells one.
    fn snapshot_rows(&self, alloc: Global, store: &Store, n: u64) -> Result<Vec<Row>, AllocError>
        ensures { IfOk result (λ rows. AreNextFirstsAt store.now self.now n rows.items) }
    {
        let Some(at) = self.snapshot_at() else {
            return Ok(Vec::new(alloc));
        };
        next_snapshot(alloc, store, &self.span, self.told_at(at), at, n)
    }

    /// The timestamp at which its snapshot is read, where some of that may be left.
    fn snapshot_at(&self) -> Option<Ts>
        ensures { MatchOption result (IsNoneLeft self.now) (λ at. IsLeftAt self.now at) }
    {
        if !self.kind.initial || self.cursor <= self.after || is_above(&self.row, self.cursor) {
            return None;
        }
        Ts::new(self.cursor)
    }

    /// The key of its last row, where that is one of its snapshot.
    fn told_at(&self, at: Ts) -> Option<&Key>
        ensures { option_copied result ≡ key_at at self.now.row }
    {
        match &self.row {
            Some(row) if row.ts == at => Some(&row.key),
            _ => None,
        }
    }

    /// The first `n` stored rows that are left for it, above its cursor.
    fn stored_rows(
        &self,
        alloc: Global,
        store: &Store,
        closed: u64,
        n: u64,
    ) -> Result<Vec<Row>, AllocError>
        ensures { IfOk result (λ rows. AreNextStoredAt store.now self.now closed n rows.items) }
    {
        let (ts, key) = place_in(self.after.max(self.cursor), &self.row);
        catch_up::next_rows(alloc, store, &self.span, ts, key, closed, n)
    }
}

/// Whether the row is above the timestamp, where there is one.
fn is_above(row: &Option<RowName>, ts: u64) -> bool
    ensures { result ≡ is_row_above row.now ts }
{
    match row {
        None => false,
        Some(row) => ts < row.ts.get(),
    }
}

/// Up to where all is told: `after`, or just below the timestamp of `row`, the last row, where that is higher.
fn told_through(after: u64, row: &Option<RowName>) -> u64
    ensures { result ≡ max after (row_floor row.now) }
{
    match row {
        None => after,
        Some(row) => after.max(row.ts.get() - 1),
    }
}

/// The place of the last row, where that is above what all is told through.
fn place_in(after: u64, last: &Option<RowName>) -> (u64, Option<&Key>)
    ensures { (r : Row) → (nat_lt after r.ts && is_after_name last.now r) ≡ is_after_place result.0 (option_copied result.1) r.key r.ts }
{
    match last {
        Some(row) if after < row.ts.get() => (row.ts.get(), Some(&row.key)),
        _ => (after, None),
    }
}
