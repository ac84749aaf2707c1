//! Which keys have a version at each timestamp.
ghost use Rattle.std.specs.Prelude.{bytes_eq, ◌&&◌, ◌≡◌, ℕ, List, false, OnOk, OnErr, MatchOption, if◌then◌else◌, ◌==◌, ◌<◌, ◌≤◌, length, take};
ghost use Rattle.std.specs.Option.{option_copied};
ghost use Rattle.version_chain.specs.Dead.{is_dead_at};
ghost use Rattle.version_chain.specs.Versions.{versions_in};
ghost use Rattle.version_chain.specs.Indexes.{is_among, is_listed, listed_in, AreBetween, AreTakenAlike, IsFilled, IsFirstBetween, IsListedAt, IsNoneBetween, IsTakenAlone, IsUnlisted};
ghost use Rattle.spans.proofs.WriteSets.{has};

use crate::versions::Versions;
use key_set::KeySet;
use std::alloc::{AllocError, Global};
use std::collections::BTreeMap;
use std::collections::btree_map::{Entry, Range};
use std::mem;
use std::ops::Bound;
use timestamps::{Key, TsKey};

/// The keys of each timestamp at which there are some.
#[derive(Drop)]
pub(crate) struct Index {
    alloc: Global,
    keys: BTreeMap<TsKey, KeySet>,
}

impl Index {
    pub(crate) fn new(alloc: Global) -> Index
        ensures listed { (x : List ℕ) (t : ℕ) → is_listed result x t ≡ false }
        ensures filled { IsFilled result }
    {
        Index {
            alloc,
            keys: BTreeMap::new(alloc),
        }
    }

    /// Adds a key at `ts`, where it may be.
    pub(crate) fn add(&mut self, ts: u64, key: &Key) -> Result<(), AllocError>
        ensures ok { OnOk result (IsListedAt self.old self.new ts key.now) }
        ensures err { OnErr result ((y : List ℕ) (i : ℕ) → is_listed self.new y i ≡ is_listed self.old y i) }
        ensures filled { IsFilled self.old → IsFilled self.new }
    {
        match self.keys.entry(TsKey(ts))? {
            Entry::Occupied(entry) => {
                entry.into_mut().add(key)?;
            }
            Entry::Vacant(entry) => {
                let key = key.copy()?;
                entry.insert(KeySet::of(self.alloc, key));
            }
        }
        Ok(())
    }

    /// Takes a key, where it is there, out at `ts`. An entry whose keys are taken stays, so that they can be put back.
    pub(crate) fn remove(&mut self, ts: u64, key: &Key)
        ensures listed { (x : List ℕ) (t : ℕ) → is_listed self.new x t ≡ (if (ts == t) && bytes_eq key.now x then false else is_listed self.old x t) }
        ensures taken { AreTakenAlike self.old self.new }
    {
        let Some(keys) = self.keys.get_mut(&TsKey(ts)) else {
            return;
        };
        if keys.remove(key) && keys.is_empty() {
            self.keys.remove(&TsKey(ts));
        }
    }

    /// Takes a key out at the timestamps of those of its versions before a place that are dead by the horizon.
    pub(crate) fn remove_dead(
        &mut self,
        key: &Key,
        versions: &Versions,
        place: usize,
        horizon: u64,
        top: u64,
    )
        requires { place ≤ length (versions_in versions.now) }
        ensures listed { IsUnlisted self.old self.new key.now (is_dead_at horizon top (take place (versions_in versions.now))) }
        ensures taken { AreTakenAlike self.old self.new }
    {
        for i in 0..place {
            let version = versions.at(i);
            if version.is_dead_by(horizon, top) {
                self.remove(version.ts.get(), key);
            }
        }
    }

    /// Takes the keys of `ts`, where there are some, and leaves their entry in place.
    pub(crate) fn take(&mut self, ts: u64) -> Option<KeySet>
        requires { IsFilled self.old }
        ensures keys { (y : List ℕ) → is_among result y ≡ is_listed self.old y ts }
        ensures others { (y : List ℕ) (i : ℕ) → is_listed self.new y i ≡ (if ts == i then false else is_listed self.old y i) }
        ensures taken { MatchOption result (IsFilled self.new) (λ _. IsTakenAlone self.new ts) }
    {
        let keys = self.keys.get_mut(&TsKey(ts))?;
        Some(mem::replace(keys, KeySet::new(self.alloc)))
    }

    /// Puts keys back in the place of those that were taken.
    pub(crate) fn put_back(&mut self, ts: u64, keys: KeySet)
        requires { IsTakenAlone self.old ts }
        ensures listed { (y : List ℕ) (i : ℕ) → is_listed self.new y i ≡ (if ts == i then has y keys else is_listed self.old y i) }
        ensures filled { IsFilled self.new }
    {
        if keys.is_empty() {
            self.keys.remove(&TsKey(ts));
        } else if let Some(place) = self.keys.get_mut(&TsKey(ts)) {
            *place = keys;
        }
    }

    /// Takes the keys of `ts`, where there are some, out with their entry.
    pub(crate) fn remove_all(&mut self, ts: u64) -> Option<KeySet>
        ensures keys { (y : List ℕ) → is_among result y ≡ is_listed self.old y ts }
        ensures others { (y : List ℕ) (i : ℕ) → is_listed self.new y i ≡ (if ts == i then false else is_listed self.old y i) }
        ensures filled { IsFilled self.old → IsFilled self.new }
    {
        self.keys.remove(&TsKey(ts))
    }

    pub(crate) fn keys_at(&self, ts: u64) -> Option<&KeySet>
        ensures { (y : List ℕ) → is_among (option_copied result) y ≡ is_listed self.now y ts }
    {
        self.keys.get(&TsKey(ts))
    }

    /// The least timestamp above `after` and at or below `through` that has keys.
    pub(crate) fn first_between(&self, after: u64, through: u64) -> Option<u64>
        ensures { MatchOption result (IsNoneBetween self.now after through) (λ ts. IsFirstBetween self.now after through ts) }
    {
        let (ts, _) = self.between(after, through).next()?;
        Some(ts.0)
    }

    /// The timestamps above `after` and at or below `through`, rising, each with its keys.
    pub(crate) fn between(&self, after: u64, through: u64) -> Range<'_, TsKey, KeySet>
        ensures listed { (y : List ℕ) (i : ℕ) → after < i → i ≤ through → listed_in result y i ≡ is_listed self.now y i }
        ensures rising { AreBetween after through result }
    {
        // a range may not end before it begins
        let through = through.max(after);
        let after = Bound::Excluded(TsKey(after));
        let through = Bound::Included(TsKey(through));
        self.keys.range((after, through))
    }
}
