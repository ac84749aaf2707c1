//! The store: the records of all keys, and the index by timestamp in step with them.
ghost use Rattle.std.specs.Prelude.{◌≡◌, ◌↔◌, ℕ, List, ◌≤◌, ◌<◌, ◌&&◌, None, Some, MatchOption, IfOk, OnOk, OnErr, suc, ◌^◌, is_some, nat_lt, true, false};
ghost use Rattle.std.specs.Option.{option_copied};
ghost use Rattle.std.specs.List.{filter};
ghost use Rattle.std.specs.Map.{keys_of};
ghost use Rattle.version_chain.specs.Prelude.{IsNextAbove, RisingKeys, in_span, until};
ghost use Rattle.version_chain.specs.Walking.{IsBeside, keys_ahead};
ghost use Rattle.version_chain.specs.Stores.{Entry, AreFilled, HaveSameMarks, found_in, has_versions, marked_in, AreMarkedAt, IsCrossedIn, IsMarkedAt, is_committed_in, version_in, IsCommittedAt, IsCountAt, IsCountOf, IsNewestIn, IsAsBefore, IsWrittenTo, AreCommittedAt, AreDroppedAt, Stored};
ghost use Rattle.version_chain.specs.Dead.{is_dead_in, ArePartlyThinned, IsCollectedIn};
ghost use Rattle.version_chain.specs.Indexes.{is_listed, IsFilled, IsListedAt, IsSound};
ghost use Rattle.version_chain.specs.declared.store.Wrote.TheVariants.{Crossed, Done};
ghost use Rattle.version_chain.specs.Records.{stored_of};

use crate::chain::Version;
use crate::chains::{Chains, Placed, Spot};
use crate::in_span::InSpan;
use crate::index::Index;
use crate::steps::Steps;
use crate::versions_after::VersionsAfter;
use key_set::Keys;
use spans::Span;
use std::alloc::{AllocError, Global};
use std::marker::Model;
use timestamps::{Key, Ts, Value};

/// What became of a write.
#[derive(Drop)]
pub enum Wrote {
    /// Nothing, because a reader above it has read the version below it.
    Crossed,
    /// Its version stands.
    Done,
}

/// Versions by key and timestamp, and which keys have one at each timestamp.
#[derive(Drop)]
pub struct Store {
    chains: Chains,
    index: Index,
    count: u64,
    /// No version is dead by it.
    dropped_through: u64,
}

impl Model for Store {
    ghost Value = { Stored };

    ghost view = { λ s. stored_of s.chains };

    ghost invariant = { λ s. IsSound (stored_of s.chains) s.index s.count s.dropped_through };
}

impl Store {
    /// No version, and no mark.
    pub fn new(alloc: Global) -> Store
        ensures versions { (x : List ℕ) (t : ℕ) → version_in result x t ≡ None }
        ensures marks { (x : List ℕ) (j : ℕ) → marked_in result x j ≡ false }
    {
        Store {
            chains: Chains::new(alloc),
            index: Index::new(alloc),
            count: 0,
            dropped_through: 0,
        }
    }

    /// How many versions there are.
    pub fn versions(&self) -> u64
        ensures { IsCountOf self.now result }
    {
        self.count
    }

    /// The version of the key with the greatest timestamp at or below `t`.
    pub fn newest_at(&self, key: &Key, t: u64) -> Option<&Version>
        ensures { MatchOption result ((i : ℕ) → i ≤ t → version_in self.now key.now i ≡ None) (λ v. IsNewestIn self.now key.now t v.now) }
    {
        self.chains.newest_at(key, t)
    }

    /// The least timestamp above `t` at which the key has a version.
    pub fn next_above(&self, key: &Key, t: u64) -> Option<u64>
        ensures { IsNextAbove (version_in self.now key.now) t result }
    {
        let (_, record) = self.chains.record(key)?;
        let next = record.chain.next_above(t, &mut Steps::new())?;
        Some(next.ts.get())
    }

    /// The version of the key with the greatest timestamp at or below `t`, and the least timestamp above `t` at which the key
    /// has one. The spot saves `mark` the search for the key.
    pub fn around(&self, key: &Key, t: u64) -> (Option<&Version>, Option<u64>, Spot)
        ensures newest { MatchOption result.0 ((i : ℕ) → i ≤ t → version_in self.now key.now i ≡ None) (λ v. IsNewestIn self.now key.now t v.now) }
        ensures next { IsNextAbove (version_in self.now key.now) t result.1 }
    {
        let Some((number, record)) = self.chains.record(key) else {
            return (None, None, Spot { number: None });
        };
        let spot = Spot {
            number: Some(number),
        };
        match record.chain.around(t, &mut Steps::new()) {
            (newest, None) => (newest, None, spot),
            (newest, Some(next)) => (newest, Some(next.ts.get()), spot),
        }
    }

    /// The version of the key at `ts`, where it is committed.
    pub fn committed_at(&self, key: &Key, ts: u64) -> Option<&Version>
        ensures { MatchOption result (is_committed_in self.now key.now ts ≡ false) (λ v. IsCommittedAt self.now key.now ts v.now) }
    {
        let version = self.chains.newest_at(key, ts)?;
        if version.ts.get() != ts || !version.committed {
            return None;
        }
        Some(version)
    }

    /// The places of versions after a place and at or below `through`, by timestamp and then by key. The place is that of
    /// `key` at `ts`; without a key it is behind all keys of `ts`.
    pub fn versions_after<'a>(
        &'a self,
        ts: u64,
        key: Option<&'a Key>,
        through: u64,
    ) -> VersionsAfter<'a>
        ensures { result ≡ record { store = self.now; ts = ts; key = option_copied key.entry; through = through } }
    {
        VersionsAfter {
            chains: &self.chains,
            ts,
            key,
            through,
            at: ts,
            keys: self.beside(ts, key, through),
            later: self.index.between(ts, through),
        }
    }

    /// The keys of `ts` above the place's, unless `ts` is above `through`.
    fn beside(&self, ts: u64, key: Option<&Key>, through: u64) -> Option<Keys<'_>>
        ensures { IsBeside (record { store = self.now; ts = ts; key = option_copied key.entry; through = through }) (keys_ahead result) }
    {
        let key = key?;
        if through < ts {
            return None;
        }
        let keys = self.index.keys_at(ts)?;
        Some(keys.above(key))
    }

    /// The keys of the span that have a version, rising, each with its chain.
    pub fn in_span<'a>(&'a self, span: &'a Span) -> InSpan<'a>
        ensures found { result ≡ filter (λ (e : Entry). in_span span.now e.0 && has_versions e.1) self.now.entries }
        ensures ordered { RisingKeys (keys_of self.now.entries) }
        ensures rising { RisingKeys (keys_of result) }
        ensures filled { AreFilled result }
    {
        self.chains.in_span(span)
    }

    /// Puts an undecided version in, in whose place one of the same transaction may stand, unless a reader above it has read
    /// the version of the key below it. A new one is listed in the index; where that runs out of memory the version goes again.
    pub fn write(&mut self, key: &Key, ts: Ts, after: Option<&Value>) -> Result<Wrote, AllocError>
        ensures crossed { IfOk result (λ wrote. (wrote ≡ Crossed) ↔ IsCrossedIn self.old key.now ts) }
        ensures free { OnErr result (IsCrossedIn self.old key.now ts → ⊥) }
        ensures before { IfOk result (λ wrote. wrote ≡ Crossed → IsAsBefore self.old self.new) }
        ensures done { IfOk result (λ wrote. wrote ≡ Done → IsWrittenTo self.old self.new ts key.now (option_copied after.entry)) }
        ensures err { OnErr result (IsAsBefore self.old self.new) }
        ensures marks { HaveSameMarks self.old self.new }
    {
        match self.chains.write(key, ts, after)? {
            Placed::Crossed => Ok(Wrote::Crossed),
            Placed::Over => Ok(Wrote::Done),
            Placed::New => {
                if let Err(refused) = list(&mut self.index, self.count, ts.get(), key) {
                    self.chains.remove(key, ts.get());
                    return Err(refused);
                }
                self.count += 1;
                Ok(Wrote::Done)
            }
        }
    }

    /// Marks the reader of a key, who read the version of `above`, or none where that is 0. The next version is that of `next`.
    /// Of the key's readers in this gap the greatest alone stays.
    pub fn mark(
        &mut self,
        key: &Key,
        spot: Spot,
        ts: Ts,
        above: u64,
        next: Option<u64>,
    ) -> Result<(), AllocError>
        requires low { above < ts }
        requires high { ts ≤ until next }
        ensures ok { OnOk result (IsMarkedAt self.old self.new key.now ts above (until next)) }
        ensures err { OnErr result (HaveSameMarks self.old self.new) }
        ensures versions { IsAsBefore self.old self.new }
    {
        let until = next.unwrap_or(u64::MAX);
        self.chains.mark(key, spot, ts.get(), above, until)
    }

    /// Marks the reader of all keys of a span, those without a version too, but for keys where it reads its own.
    pub fn mark_all(&mut self, span: &Span, ts: Ts) -> Result<(), AllocError>
        ensures ok { OnOk result (AreMarkedAt self.old self.new span.now ts) }
        ensures err { OnErr result (HaveSameMarks self.old self.new) }
        ensures versions { IsAsBefore self.old self.new }
    {
        self.chains.mark_all(span, ts.get())
    }

    /// The marks of each reader up to `ts` go.
    pub fn forget_through(&mut self, ts: u64)
        ensures marks { (x : List ℕ) (j : ℕ) → marked_in self.new x j ≡ (nat_lt ts j && marked_in self.old x j) }
        ensures versions { IsAsBefore self.old self.new }
    {
        self.chains.forget_through(ts);
    }

    /// How many keys have a version at `ts`.
    pub fn written_at(&self, ts: u64) -> u64
        ensures { IsCountAt self.now ts result }
    {
        match self.index.keys_at(ts) {
            None => 0,
            Some(keys) => keys.len() as u64,
        }
    }

    /// Marks the versions of `ts` as committed, and says how many there are.
    pub fn commit(&mut self, ts: Ts) -> u64
        ensures committed { AreCommittedAt self.old self.new ts }
        ensures count { IsCountAt self.old ts result }
        ensures marks { HaveSameMarks self.old self.new }
    {
        let ts = ts.get();
        // a version that commits below it may be dead by it, or make others so
        self.dropped_through = self.dropped_through.min(ts - 1);
        let Some(keys) = self.index.keys_at(ts) else {
            return 0;
        };
        self.chains.commit_all(keys.iter(), ts);
        keys.len() as u64
    }

    /// Drops the versions of `ts`.
    pub fn abort(&mut self, ts: Ts)
        ensures dropped { AreDroppedAt self.old self.new ts }
        ensures marks { HaveSameMarks self.old self.new }
    {
        let ts = ts.get();
        let Some(keys) = self.index.remove_all(ts) else {
            return;
        };
        self.chains.remove_all(keys.iter(), ts);
        self.count -= keys.len() as u64;
    }

    /// Drops the versions that are dead by the horizon, and says how many: a committed one at or below it is dead where it is
    /// a delete or where a newer one of its key is committed at or below it.
    pub fn drop_dead(&mut self, horizon: u64) -> u64
        ensures collected { IsCollectedIn self.old self.new horizon result }
        ensures marks { HaveSameMarks self.old self.new }
    {
        let before = self.count;
        let from = self.dropped_through;
        let mut after = from;
        while let Some(ts) = self.index.first_between(after, horizon) {
            self.thin(ts, horizon);
            after = ts;
        }
        self.dropped_through = self.dropped_through.max(horizon);
        before - self.count
    }

    /// Drops what is dead by the horizon of each key that has a version at `ts`.
    fn thin(&mut self, ts: u64, horizon: u64)
        ensures thinned { ArePartlyThinned self.old self.new horizon }
        ensures settled { (y : List ℕ) (i : ℕ) → is_some (found_in self.new y ts) ≡ true → is_dead_in self.new horizon y i ≡ false }
    {
        let Some(mut keys) = self.index.take(ts) else {
            return;
        };
        for key in keys.iter() {
            self.count -= self.chains.drop_dead(key, horizon, &mut self.index);
        }
        let chains = &self.chains;
        keys.retain(|key| chains.has(key, ts));
        self.index.put_back(ts, keys);
    }
}

/// Lists a key at a timestamp, where one more than these versions can be counted.
fn list(index: &mut Index, count: u64, ts: u64, key: &Key) -> Result<(), AllocError>
    ensures ok { OnOk result (IsListedAt index.old index.new ts key.now) }
    ensures err { OnErr result ((y : List ℕ) (i : ℕ) → is_listed index.new y i ≡ is_listed index.old y i) }
    ensures filled { IsFilled index.old → IsFilled index.new }
    ensures room { OnOk result (suc count < 2 ^ 64) }
{
    if count == u64::MAX {
        return Err(AllocError);
    }
    index.add(ts, key)
}
