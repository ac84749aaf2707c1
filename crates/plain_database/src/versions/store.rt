//! The checker's transactions with the versions that they wrote, and how far they are closed. A transaction is aborted
//! where its state says so, or where it is undecided at or below closed, because a hard closing ended it.
ghost use Rattle.std.specs.Prelude.{◌≡◌, ◌++◌, ◌∷◌, [], OnErr, OnOk, Some};
ghost use Rattle.std.specs.Option.{option_copied};
ghost use Rattle.plain_database.specs.Prelude.{newest};
ghost use Rattle.plain_database.specs.Table.{begun_at, changed, committed_at, ended, gone_in, is_crossed, reading, with_begun, writing, IsIndexed};
ghost use Rattle.plain_database.specs.VersionsTied.{Held, VersionsTied, place_of, version_in};

use crate::versions::begun::Begun;
use crate::versions::reads::Read;
use crate::versions::time_table::TimeTable;
use crate::versions::writers::Writers;
use spans::State;
use std::alloc::{AllocError, Global};
use std::marker::Model;
use timestamps::{Key, Value};

/// A transaction's version of a key, lent.
#[derive(Clone, Copy)]
pub struct Visible<'a> {
    pub ts: u64,
    /// The value that it wrote last, or `None` for a delete.
    pub after: &'a Option<Value>,
}

/// The transactions, the index of who wrote each key, and the closed timestamp.
#[derive(Drop)]
pub struct VersionStore {
    closed: u64,
    pub(crate) table: TimeTable,
    pub(crate) writers: Writers,
}

impl Model for VersionStore {
    ghost Value = { Held };

    ghost view = { λ s. record { closed = s.closed; table = s.table } };

    ghost invariant = { λ s. IsIndexed s.table s.writers };
}

impl VersionStore {
    /// No transaction, and nothing closed.
    pub fn new(alloc: Global) -> VersionStore
        ensures { VersionsTied result [] }
    {
        VersionStore {
            closed: 0,
            table: TimeTable::new(alloc),
            writers: Writers::new(alloc),
        }
    }

    /// The closed timestamp.
    pub fn closed(&self) -> u64
        ensures { result ≡ self.now.closed }
    {
        self.closed
    }

    /// The transaction of this timestamp.
    pub fn find(&self, ts: u64) -> Option<&Begun>
        ensures { option_copied result ≡ begun_at self.now.table ts }
    {
        self.table.find(ts)
    }

    /// Whether the transaction of this timestamp is committed.
    pub fn is_committed(&self, ts: u64) -> bool
        ensures { result ≡ committed_at (begun_at self.now.table ts) }
    {
        let begun = self.find(ts);
        begun.is_some_and(|begun| begun.state == State::Committed)
    }

    /// Whether a transaction above `ts` was given a version of the key from below it.
    pub fn any_across(&self, key: &Key, ts: u64) -> bool
        ensures { result ≡ is_crossed self.now.table key.now ts }
    {
        self.table.any_across(key, ts)
    }

    /// The version of a key that a transaction made, unless it is aborted.
    pub fn version(&self, key: &Key, ts: u64) -> Option<&Option<Value>>
        ensures { option_copied result ≡ version_in self.now key.now ts }
    {
        let begun = self.find(ts)?;
        if self.is_gone(begun, ts) {
            return None;
        }
        begun.writes.get(key)
    }

    /// Whether a transaction is aborted.
    pub(crate) fn is_gone(&self, begun: &Begun, ts: u64) -> bool
        ensures { result ≡ gone_in self.now.closed ts (Some begun.now) }
    {
        match begun.state {
            State::Undecided => ts <= self.closed,
            State::Committed => false,
            State::Aborted => true,
        }
    }

    /// The version of the key with the greatest timestamp at most `ts`. There is none at 0.
    pub fn newest(&self, key: &Key, ts: u64) -> Option<Visible<'_>>
        ensures { newest (version_in self.now key.now) ts ≡ place_of result }
    {
        let mut through = ts;
        while let Some(writer) = self.writers.last(key, through) {
            if writer == 0 {
                return None;
            }
            if let Some(after) = self.version(key, writer) {
                return Some(Visible { ts: writer, after });
            }
            through = writer - 1;
        }
        None
    }

    /// The timestamp of that version, and 0 where there is none.
    pub fn source(&self, key: &Key, ts: u64) -> u64
        ensures { result ≡ (newest (version_in self.now key.now) ts).ts }
    {
        self.newest(key, ts).map_or(0, |version| version.ts)
    }

    /// Takes in a transaction that begins. It would replace one of this timestamp, which no begin that was answered has.
    pub fn begin(&mut self, ts: u64, seat: u8) -> Result<(), AllocError>
        ensures ok { OnOk result (self.new ≡ record self.old { table = with_begun ts seat self.old.table }) }
        ensures err { OnErr result (self.new ≡ self.old) }
    {
        self.table.begin(ts, seat)
    }

    /// Notes how a transaction ended.
    pub fn end(&mut self, ts: u64, state: State)
        ensures { self.new ≡ record self.old { table = changed (ended state) self.old.table ts } }
    {
        self.table.end(ts, state);
    }

    /// Takes in a read.
    pub fn read(&mut self, ts: u64, read: Read) -> Result<(), AllocError>
        ensures ok { OnOk result (self.new ≡ record self.old { table = changed (reading read) self.old.table ts }) }
        ensures err { OnErr result (self.new ≡ self.old) }
    {
        self.table.read(ts, read)
    }

    /// Takes in a write, in the place of an earlier one of the same transaction and key.
    pub fn write(&mut self, ts: u64, key: &Key, after: Option<Value>) -> Result<(), AllocError>
        ensures ok { OnOk result (self.new ≡ record self.old { table = changed (writing key.now after) self.old.table ts }) }
        ensures err { OnErr result (self.new ≡ self.old) }
    {
        self.writers.add(key, ts)?;
        self.table.write(ts, key, after)
    }

    /// Moves the closed timestamp.
    pub fn close(&mut self, at: u64)
        ensures { self.new ≡ record self.old { closed = at } }
    {
        self.closed = at;
    }
}
