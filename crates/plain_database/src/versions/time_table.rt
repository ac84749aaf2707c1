//! The checker's transactions by timestamp.
ghost use Rattle.std.specs.Prelude.{◌≡◌, [], OnErr, OnOk};
ghost use Rattle.std.specs.Option.{option_copied};
ghost use Rattle.plain_database.specs.Table.{begun_at, changed, ended, is_crossed, reading, with_begun, writing, AllBegun};

use crate::versions::begun::Begun;
use crate::versions::reads::Read;
use spans::State;
use std::alloc::{AllocError, Global};
use std::collections::BTreeMap;
use std::marker::Model;
use std::ops::Bound;
use timestamps::{Key, TsKey, Value};

/// The transactions by timestamp.
#[derive(Drop)]
pub struct TimeTable {
    alloc: Global,
    pub(crate) map: BTreeMap<TsKey, Begun>,
}

impl Model for TimeTable {
    ghost Value = { AllBegun };

    ghost view = { λ t. t.map.entries };
}

impl TimeTable {
    /// No transaction.
    pub fn new(alloc: Global) -> TimeTable
        ensures { result ≡ [] }
    {
        TimeTable {
            alloc,
            map: BTreeMap::new(alloc),
        }
    }

    /// The transaction of this timestamp.
    pub fn find(&self, ts: u64) -> Option<&Begun>
        ensures { option_copied result ≡ begun_at self.now ts }
    {
        self.map.get(&TsKey(ts))
    }

    /// Takes in a transaction that begins. It would replace one of this timestamp, which no begin that was answered has.
    pub fn begin(&mut self, ts: u64, seat: u8) -> Result<(), AllocError>
        ensures ok { OnOk result (self.new ≡ with_begun ts seat self.old) }
        ensures err { OnErr result (self.new ≡ self.old) }
    {
        self.map.insert(TsKey(ts), Begun::new(self.alloc, seat))?;
        Ok(())
    }

    /// Notes how a transaction ended.
    #[tactic(auto, using(crate::proofs::TableSteps::changed_none))]
    pub fn end(&mut self, ts: u64, state: State)
        ensures { self.new ≡ changed (ended state) self.old ts }
    {
        let Some(begun) = self.map.get_mut(&TsKey(ts)) else {
            return;
        };
        begun.state = state;
    }

    /// Takes in a read.
    #[tactic(auto, using(crate::proofs::TableSteps::changed_none))]
    pub fn read(&mut self, ts: u64, read: Read) -> Result<(), AllocError>
        ensures ok { OnOk result (self.new ≡ changed (reading read) self.old ts) }
        ensures err { OnErr result (self.new ≡ self.old) }
    {
        let Some(begun) = self.map.get_mut(&TsKey(ts)) else {
            return Ok(());
        };
        begun.reads.add(read)
    }

    /// Takes in a write.
    #[tactic(auto, using(crate::proofs::TableSteps::changed_none))]
    pub fn write(&mut self, ts: u64, key: &Key, after: Option<Value>) -> Result<(), AllocError>
        ensures ok { OnOk result (self.new ≡ changed (writing key.now after) self.old ts) }
        ensures err { OnErr result (self.new ≡ self.old) }
    {
        let Some(begun) = self.map.get_mut(&TsKey(ts)) else {
            return Ok(());
        };
        begun.writes.write(key, after)
    }

    /// Whether a transaction above `ts` was given a version of the key from below it.
    pub fn any_across(&self, key: &Key, ts: u64) -> bool
        ensures { result ≡ is_crossed self.now key.now ts }
    {
        let above = (Bound::Excluded(TsKey(ts)), Bound::Unbounded);
        let mut readers = self.map.range(above);
        readers.any(|(_, begun)| begun.reads.any_across(key, ts))
    }
}
