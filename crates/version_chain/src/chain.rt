//! The versions of one key, found by timestamp: the newest at one, the one at a place, and what is undecided or dead.
ghost use Rattle.std.specs.Prelude.{◌≡◌, ℕ, ◌<◌, ◌≤◌, ◌+◌, ◌^◌, ◌==◌, ◌↔◌, [], ◌∷◌, suc, length, slice_index_or, if◌then◌else◌, MatchOption, MatchResult, Some, None, IsTrue, IfOk, OnOk, OnErr, is_none, option_map, not, false, List};
ghost use Rattle.std.specs.Option.{option_copied};
ghost use Rattle.version_chain.specs.declared.chain.Version.{Version};
ghost use Rattle.std.specs.List.{filter};
ghost use Rattle.version_chain.specs.Dead.{is_dead_version, newest_of, is_dead_at};
ghost use Rattle.version_chain.specs.Indexes.{AreTakenAlike, IsUnlisted};
ghost use Rattle.version_chain.specs.Versions.{versions_in, DoRise, version_of, as_committed, IsPlaceAbove, IsNoneUpTo, IsNewestOf, IsNoneAbove, IsLeastAbove, IsPlaceOf, IsFreePlace};

use crate::index::Index;
use crate::steps::Steps;
use crate::versions::Versions;
use std::alloc::{AllocError, Global};
use std::marker::Model;
use timestamps::binary_search::BinarySearch;
use timestamps::{Key, Ts, Value};

/// A transaction's version of a key.
#[derive(Debug, Drop)]
pub struct Version {
    pub ts: Ts,
    /// The value, or `None` for a delete.
    pub after: Option<Value>,
    /// Whether the transaction has committed.
    pub committed: bool,
}

impl Version {
    /// An undecided version of this value, or a delete where there is none. The value is copied.
    pub(crate) fn undecided(ts: Ts, after: Option<&Value>) -> Result<Version, AllocError>
        ensures { IfOk result (λ v. v ≡ record { ts = ts; after = option_copied after.entry; committed = false }) }
    {
        let after = match after {
            None => None,
            Some(value) => Some(value.copy()?),
        };
        Ok(Version {
            ts,
            after,
            committed: false,
        })
    }

    /// Whether it is dead by the horizon, where `top` is the timestamp of the newest committed version at or below that.
    pub(crate) fn is_dead_by(&self, horizon: u64, top: u64) -> bool
        ensures { result ≡ is_dead_version horizon top self.now }
    {
        let ts = self.ts.get();
        self.committed && (ts <= horizon && (self.after.is_none() || ts < top))
    }
}

/// The versions of a key, by rising timestamp.
#[derive(Drop)]
pub struct Chain {
    versions: Versions,
}

impl Model for Chain {
    ghost Value = { List Version };

    ghost view = { λ c. versions_in c.versions };

    ghost invariant = { λ c. DoRise (versions_in c.versions) };
}

impl Chain {
    /// The version at place `i`. Timestamps rise.
    fn version(&self, i: usize) -> &Version
        requires { i < length self.now }
        ensures version { result.now ≡ slice_index_or self.now i result.now }
        ensures rises { DoRise self.now }
    {
        self.versions.at(i)
    }

    /// How many versions there are.
    pub fn len(&self) -> usize
        ensures { result ≡ length self.now }
    {
        self.versions.len()
    }

    /// The timestamp of the version at place `i`, below the length: one step.
    pub fn ts_at(&self, i: usize, steps: &mut Steps) -> u64
        requires { i < length self.now }
        ensures ts { (d : Version) → result ≡ (slice_index_or self.now i d).ts }
        ensures steps { steps.new.count ≡ suc steps.old.count }
    {
        *steps = Steps::after(steps);
        self.version(i).ts.get()
    }

    /// How many versions are at or below `t`, which is the place where those above it begin.
    fn place_above(&self, t: u64, steps: &mut Steps) -> usize
        ensures place { IsPlaceAbove self.now t result }
        ensures steps { (d : ℕ) → length self.now < 2 ^ d → steps.new.count ≤ steps.old.count + d }
    {
        let mut left = BinarySearch::of(self.versions.len());
        while left.size > 0 {
            let read = self.ts_at(left.middle(), steps);
            left = left.after(read, t);
        }
        left.low
    }

    /// The same number. The last version is looked at first, since writes and commits come mostly there.
    fn place_near_end(&self, t: u64) -> usize
        ensures { IsPlaceAbove self.now t result }
    {
        let len = self.len();
        if len == 0 {
            return 0;
        }
        if self.version(len - 1).ts.get() > t {
            return self.place_above(t, &mut Steps::new());
        }
        len
    }

    /// The version with the greatest timestamp at or below `t`. Like the next two it reads at most as many timestamps as the
    /// length has binary digits.
    pub fn newest_at(&self, t: u64, steps: &mut Steps) -> Option<&Version>
        ensures version { MatchOption result (IsNoneUpTo self.now t) (λ v. IsNewestOf self.now t v.now) }
        ensures steps { (d : ℕ) → length self.now < 2 ^ d → steps.new.count ≤ steps.old.count + d }
    {
        let place = self.place_above(t, steps);
        self.before(place)
    }

    /// The version with the least timestamp above `t`.
    pub fn next_above(&self, t: u64, steps: &mut Steps) -> Option<&Version>
        ensures version { MatchOption result (IsNoneAbove self.now t) (λ v. IsLeastAbove self.now t v.now) }
        ensures steps { (d : ℕ) → length self.now < 2 ^ d → steps.new.count ≤ steps.old.count + d }
    {
        let place = self.place_above(t, steps);
        self.at(place)
    }

    /// The newest version at or below `t` and the next one above it, by one search.
    pub fn around(&self, t: u64, steps: &mut Steps) -> (Option<&Version>, Option<&Version>)
        ensures newest { MatchOption result.0 (IsNoneUpTo self.now t) (λ v. IsNewestOf self.now t v.now) }
        ensures next { MatchOption result.1 (IsNoneAbove self.now t) (λ v. IsLeastAbove self.now t v.now) }
        ensures steps { (d : ℕ) → length self.now < 2 ^ d → steps.new.count ≤ steps.old.count + d }
    {
        let place = self.place_above(t, steps);
        (self.before(place), self.at(place))
    }

    fn before(&self, place: usize) -> Option<&Version>
        requires { place ≤ length self.now }
        ensures { (t : ℕ) → IsPlaceAbove self.now t place → MatchOption result (IsNoneUpTo self.now t) (λ v. IsNewestOf self.now t v.now) }
    {
        if place == 0 {
            return None;
        }
        Some(self.version(place - 1))
    }

    fn at(&self, place: usize) -> Option<&Version>
        requires { place ≤ length self.now }
        ensures { (t : ℕ) → IsPlaceAbove self.now t place → MatchOption result (IsNoneAbove self.now t) (λ v. IsLeastAbove self.now t v.now) }
    {
        if place == self.len() {
            return None;
        }
        Some(self.version(place))
    }

    pub(crate) fn none(alloc: Global) -> Chain
        ensures { result ≡ [] }
    {
        let versions = Versions::Short(Vec::new(alloc));
        Chain { versions }
    }

    /// A chain of one version, with room for no more.
    pub(crate) fn of(alloc: Global, version: Version) -> Result<Chain, AllocError>
        ensures { IfOk result (λ chain. chain ≡ version ∷ []) }
    {
        let mut versions = Vec::with_capacity(alloc, 1)?;
        versions.push_reserved(version);
        let versions = Versions::Short(versions);
        Ok(Chain { versions })
    }

    pub(crate) fn is_empty(&self) -> bool
        ensures { IsTrue result ↔ (self.now ≡ []) }
    {
        self.len() == 0
    }

    /// The place of the version of `ts`, or where one would stand.
    fn place_of(&self, ts: u64) -> Result<usize, usize>
        ensures { MatchResult result (λ k. IsPlaceOf self.now ts k) (λ n. IsFreePlace self.now ts n) }
    {
        let place = self.place_near_end(ts);
        if place == 0 {
            return Err(0);
        }
        if self.version(place - 1).ts.get() != ts {
            return Err(place);
        }
        Ok(place - 1)
    }

    /// Puts a version in its place, in which one of the same timestamp may stand, and says whether none did.
    pub(crate) fn write(&mut self, version: Version) -> Result<bool, AllocError>
        ensures new { IfOk result (λ new. new ≡ is_none (version_of self.old version.ts)) }
        ensures ok { OnOk result ((i : ℕ) → version_of self.new i ≡ (if version.ts == i then Some version else version_of self.old i)) }
        ensures err { OnErr result (self.new ≡ self.old) }
    {
        match self.place_of(version.ts.get()) {
            Ok(place) => {
                self.versions.set(place, version);
                Ok(false)
            }
            Err(place) => {
                self.versions.insert(place, version)?;
                Ok(true)
            }
        }
    }

    /// Marks the version of `ts`, where there is one, as committed.
    pub(crate) fn commit(&mut self, ts: u64)
        ensures { (i : ℕ) → version_of self.new i ≡ (if ts == i then option_map as_committed (version_of self.old i) else version_of self.old i) }
    {
        if let Ok(place) = self.place_of(ts) {
            self.versions.commit(place);
        }
    }

    /// Takes out the version of `ts`, where there is one.
    pub(crate) fn remove(&mut self, ts: u64)
        ensures { (i : ℕ) → version_of self.new i ≡ (if ts == i then None else version_of self.old i) }
    {
        if let Ok(place) = self.place_of(ts) {
            self.versions.remove(place);
        }
    }

    /// The timestamp of the newest committed version before the place `end`, 0 where there is none.
    fn newest_committed(&self, end: usize) -> u64
        requires { end ≤ length self.now }
        ensures { (t : ℕ) → IsPlaceAbove self.now t end → result ≡ newest_of self.now t }
    {
        let mut place = end;
        while place > 0 {
            place -= 1;
            let version = self.version(place);
            if version.committed {
                return version.ts.get();
            }
        }
        0
    }

    /// Drops the versions that are dead by the horizon, takes their key out of the index there, and says how many they are.
    pub(crate) fn drop_dead(&mut self, horizon: u64, key: &Key, index: &mut Index) -> u64
        ensures left { self.new ≡ filter (λ (v : Version). not (is_dead_version horizon (newest_of self.old horizon) v)) self.old }
        ensures count { result ≡ length (filter (is_dead_version horizon (newest_of self.old horizon)) self.old) }
        ensures rising { DoRise self.old }
        ensures listed { IsUnlisted index.old index.new key.now (is_dead_at horizon (newest_of self.old horizon) self.old) }
        ensures taken { AreTakenAlike index.old index.new }
    {
        let before = self.len();
        let place = self.place_above(horizon, &mut Steps::new());
        let top = self.newest_committed(place);
        index.remove_dead(key, &self.versions, place, horizon, top);
        self.versions.drop_dead(place, horizon, top);
        (before - self.len()) as u64
    }
}
