//! Where the rows begin that one of the checker's feeds was not told.
ghost use Rattle.std.specs.Prelude.{◌≡◌};
ghost use Rattle.std.specs.Option.{option_copied};
ghost use Rattle.plain_database.specs.Streams.{IsPlace, key_above, row_ts, tells_snapshot};

use crate::feeds::record::FeedRecord;
use spans::ToldRow;
use timestamps::Key;

/// The place behind which a feed was told nothing. An initial feed's rows begin in the snapshot at its cursor.
pub enum Place<'a> {
    /// Behind a key of the snapshot, or at its first key; then come the rows above the cursor.
    Snapshot { after: Option<&'a Key> },
    /// Behind a key of a timestamp, or behind all of its keys.
    Stream { ts: u64, after: Option<&'a Key> },
}

impl FeedRecord {
    /// The place behind which it was told nothing.
    pub fn place(&self) -> Place<'_>
        ensures { IsPlace self.now result }
    {
        let row = self.told.row.as_ref();
        if self.tells_snapshot() {
            return Place::Snapshot {
                after: key_above(row, self.told.resolved),
            };
        }
        let whole = self.cursor.max(self.told.resolved);
        Place::Stream {
            ts: whole.max(ts_of(row)),
            after: key_above(row, whole),
        }
    }

    /// Whether it may still have to tell the snapshot at its cursor.
    fn tells_snapshot(&self) -> bool
        ensures { result ≡ tells_snapshot self.now }
    {
        self.kind.initial
            && self.told.resolved < self.cursor
            && ts_of(self.told.row.as_ref()) <= self.cursor
    }
}

/// The timestamp of a row, and 0 where there is none.
fn ts_of(row: Option<&ToldRow>) -> u64
    ensures { result ≡ row_ts (option_copied row.entry) }
{
    row.map_or(0, |row| row.ts)
}

/// The key of a row that is above a timestamp.
fn key_above(row: Option<&ToldRow>, ts: u64) -> Option<&Key>
    ensures { option_copied result ≡ key_above ts (option_copied row.entry) }
{
    let row = row?;
    (ts < row.ts).then_some(&row.key)
}
