//! What a report tells of a feed.
ghost use Rattle.std.specs.Prelude.{◌≡◌, IfOk};
ghost use Rattle.feed.specs.Prelude.{complete_at, feed_report, resolved_at};

use crate::live::{LiveFeed, told_through};
use crate::place::RowName;
use spans::{FeedReport, ToldRow};
use std::alloc::AllocError;

impl LiveFeed {
    /// How far it has come.
    pub(crate) fn report(&self, number: u64) -> Result<FeedReport, AllocError>
        ensures { IfOk result (λ n. n ≡ feed_report number self.now) }
    {
        Ok(FeedReport {
            number,
            seat: self.seat,
            kind: self.kind,
            span: self.span.copy()?,
            cursor: self.cursor,
            row: told_row(&self.row)?,
            resolved: self.resolved(),
            complete: self.complete(),
            floor: self.floor(),
            untold: None,
        })
    }

    /// The timestamp that it resolved last.
    fn resolved(&self) -> Option<u64>
        ensures { result ≡ resolved_at self.now }
    {
        (self.kind.start(self.cursor) < self.after).then_some(self.after)
    }

    /// Up to where its consumer knows that all was told.
    fn complete(&self) -> Option<u64>
        ensures { result ≡ complete_at self.now }
    {
        let through = told_through(self.after, &self.row);
        (self.cursor <= through).then_some(through)
    }
}

/// The row that was told last, once more.
fn told_row(row: &Option<RowName>) -> Result<Option<ToldRow>, AllocError>
    ensures { IfOk result (λ told. told ≡ row.now) }
{
    match row {
        None => Ok(None),
        Some(row) => Ok(Some(ToldRow {
            ts: row.ts.get(),
            key: row.key.copy()?,
        })),
    }
}
