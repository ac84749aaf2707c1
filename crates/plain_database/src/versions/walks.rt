//! Walks over the checker's transactions: those above closed, and those between two timestamps.
ghost use Rattle.std.specs.Prelude.{◌≡◌, ◌-◌, ◌<◌, ◌^◌, ◌≤◌, IfOk, Some, filter, is_some, length, max, min, nat_le, ℕ};
ghost use Rattle.plain_database.specs.Prelude.{greatest_of, horizon_of, newest, AreUndecided, begun_of, closed_of, decided_through, undecided_timestamps};
ghost use Rattle.plain_database.specs.VersionsTied.{deaths_by, newly_dead, standing, versions_between, IsRising, above_closed, is_open, stopped, Says, version_in};

use crate::versions::begun::Begun;
use crate::versions::store::VersionStore;
use spans::{State, TransactionReport};
use std::alloc::{AllocError, Global};
use std::collections::btree_map::Range;
use std::iter::Iterator;
use std::ops::Bound;
use timestamps::{Key, TsKey};

impl VersionStore {
    /// How far a closing to `to` goes: the timestamp `to`, or the one just below the oldest undecided transaction
    /// where that is lower, and never below closed.
    pub fn closed_by(&self, to: u64) -> u64
        ensures { Says self.now (λ p. result ≡ max (closed_of p) (decided_through p to)) }
    {
        let oldest = self.oldest_open();
        let decided = oldest.map_or(to, |oldest| to.min(oldest.saturating_sub(1)));
        self.closed().max(decided)
    }

    /// How many transactions at or below `to` are undecided.
    pub fn open_through(&self, to: u64) -> u64
        ensures { Says self.now (λ p. result ≡ length (filter (λ t. nat_le t to) (undecided_timestamps p))) }
    {
        let open = self
            .above_closed()
            .filter(|(ts, begun)| ts.0 <= to && is_open(begun));
        open.count() as u64
    }

    /// How many transactions are undecided.
    pub fn open_count(&self) -> u64
        ensures { Says self.now (λ p. result ≡ length (undecided_timestamps p)) }
    {
        let open = self.above_closed().filter(|(_, begun)| is_open(begun));
        open.count() as u64
    }

    /// The undecided transactions, timestamps rising, each with how many keys it wrote.
    pub fn open_reports(&self, alloc: Global) -> Result<Vec<TransactionReport>, AllocError>
        ensures { IfOk result (λ ns. Says self.now (λ p. AreUndecided p ns.items)) }
    {
        let open = self.above_closed().filter(|(_, begun)| is_open(begun));
        open.map(|(ts, begun)| TransactionReport {
            timestamp: ts.0,
            seat: begun.seat,
            keys: begun.writes.len(),
        })
        .collect(alloc)
    }

    /// The greatest timestamp that began, or 0 where none did.
    pub fn latest(&self) -> u64
        ensures { Says self.now (λ p. result ≡ greatest_of 0 (begun_of p)) }
    {
        match self.table.map.last_key_value() {
            None => 0,
            Some((ts, _)) => ts.0,
        }
    }

    /// The oldest undecided transaction.
    fn oldest_open(&self) -> Option<u64>
        ensures { Says self.now (λ p. (to : ℕ) → stopped to result ≡ decided_through p to) }
    {
        let oldest = self.above_closed().find(|(_, begun)| is_open(begun));
        oldest.map(|(ts, _)| ts.0)
    }

    /// The transactions above closed, timestamps rising. None at or below it is undecided.
    fn above_closed(&self) -> Range<'_, TsKey, Begun>
        ensures those { result ≡ above_closed self.now }
        ensures rising { IsRising self.now.table }
        ensures few { length result < 2 ^ 63 }
    {
        let above = (Bound::Excluded(TsKey(self.closed())), Bound::Unbounded);
        self.table.map.range(above)
    }

    /// How many versions stand above `low` and at or below `high`; at most the greatest `u64`.
    #[tactic(auto, using(crate::proofs::Walked::counted, crate::proofs::Passed::between_none))]
    pub fn count_between(&self, low: u64, high: u64) -> u64
        ensures { Says self.now (λ p. result ≡ min (versions_between p low high) (2 ^ 64 - 1)) }
    {
        let mut count: u64 = 0;
        if high <= low {
            return count;
        }
        let between = (Bound::Excluded(TsKey(low)), Bound::Included(TsKey(high)));
        for (ts, begun) in self.table.map.range(between) {
            if !self.is_gone(begun, ts.0) {
                count = count.saturating_add(begun.writes.len());
            }
        }
        count
    }

    /// How many versions become dead as the horizon goes from `low` to `high`; at most the greatest `u64`. A delete is
    /// dead as soon as a horizon reaches it, and a value as soon as one reaches the next version of its key. So only
    /// the versions between the two are looked at, and the one below each.
    #[tactic(auto, using(crate::proofs::Walked::died, crate::proofs::Dead::none_dies))]
    pub fn died_between(&self, low: u64, high: u64) -> u64
        ensures { Says self.now (λ p. horizon_of p ≡ low → low ≤ high → high ≤ closed_of p
            → result ≡ min (newly_dead p high) (2 ^ 64 - 1)) }
    {
        let mut count: u64 = 0;
        if high <= low {
            return count;
        }
        let between = (Bound::Excluded(TsKey(low)), Bound::Included(TsKey(high)));
        for (ts, begun) in self.table.map.range(between) {
            count = count.saturating_add(self.deaths_at(ts.0, begun));
        }
        count
    }

    /// How many versions die as a horizon reaches a transaction.
    fn deaths_at(&self, ts: u64, begun: &Begun) -> u64
        ensures { result ≡ min (deaths_by self.now ts (standing self.now ts (Some begun.now))) (2 ^ 64 - 1) }
    {
        let mut count: u64 = 0;
        if self.is_gone(begun, ts) {
            return count;
        }
        for (key, after) in &begun.writes.map {
            let below = self.newest(key, ts.saturating_sub(1));
            let replaces = below.is_some_and(|version| version.after.is_some());
            count = count.saturating_add(u64::from(after.is_none()) + u64::from(replaces));
        }
        count
    }
}

/// Whether a transaction that isn't closed is undecided.
fn is_open(begun: &Begun) -> bool
    ensures { result ≡ is_open begun.now }
{
    begun.state == State::Undecided
}
