//! The records of all keys: found, written, committed, removed and dropped by key, and marked for a reader by key or by span.
ghost use Rattle.std.specs.Prelude.{◌≡◌, ◌↔◌, ℕ, List, Some, None, MatchOption, IfOk, OnOk, OnErr, IfSome, IsTrue, is_some, option_map, true, false, bytes_eq, ◌&&◌, if◌then◌else◌, ◌<◌, ◌≤◌, ◌-◌, length, nat_lt, vec_len, vec_capacity};
ghost use Rattle.std.specs.Option.{option_copied};
ghost use Rattle.version_chain.specs.Prelude.{IsOwn, number_in};
ghost use Rattle.version_chain.specs.declared.chain.Version.{Version};
ghost use Rattle.version_chain.specs.declared.record.Record.{Record};
ghost use Rattle.version_chain.specs.Versions.{as_committed, IsNoneUpTo, IsNewestOf};
ghost use Rattle.version_chain.specs.Stores.{found_in, chain_of, AreChangedAt, HaveSameChains, HaveSameMarks, IsChangedAt, marked_in, IsCountOf, AreMarkedAt, IsCrossedIn, IsMarkedAt, AreFound};
ghost use Rattle.version_chain.specs.ByNumber.{AreLow, IsPlaced, chains_in, readers_in};
ghost use Rattle.version_chain.specs.Dead.{is_dead_in, IsThinnedAt};
ghost use Rattle.version_chain.specs.Indexes.{is_listed, AreTakenAlike};

use crate::chain::{Chain, Version};
use crate::in_span::{InSpan, numbers_in};
use crate::index::Index;
use crate::record::Record;
use crate::steps::Steps;
use key_set::Keys;
use key_table::KeyTable;
use read_marks::{Readers, SpanMarks};
use spans::Span;
use std::alloc::{AllocError, Global};
use std::iter::Iterator;
use timestamps::{Key, Ts, Value};

// Fewer records that came or lost their last version since the last sweep bring no other. So many take up to 2 MB.
const LEAST_SWEEP: usize = 16_384;

/// The place of a key's record, or that there was none, which `around` tells and `mark` takes. It is tried and never
/// believed, so a wrong one costs a search and nothing else.
#[derive(Clone, Copy)]
pub struct Spot {
    pub(crate) number: Option<usize>,
}

/// What a write did: nothing, since a reader above it has read the version below it; its version came; or it took the
/// place of one.
#[derive(Drop)]
pub(crate) enum Placed {
    Crossed,
    New,
    Over,
}

/// The keys that have a record, and of all others the latest reader, by spans.
#[derive(Drop)]
pub(crate) struct Chains {
    alloc: Global,
    keys: KeyTable,
    /// By the numbers of their keys. Those that are free have no version and no reader.
    records: Vec<Record>,
    spans: SpanMarks,
    /// Readers up to it count as none.
    forgotten: u64,
    /// How many records came, or lost their last version, since the last sweep.
    changed: usize,
    pub ghost low: { AreLow keys (length records.items) },
}

impl Chains {
    ghost use Rattle.version_chain.specs.Records.{AreNoted, AreSwept, HasNoRecord, HaveRoom, IsNumberOf, IsPlacedIn, IsPut, IsRecordOf, IsSweptFrom, MayGo, stored_of};

    pub(crate) fn new(alloc: Global) -> Chains
        ensures found { (x : List ℕ) (i : ℕ) → found_in (stored_of result) x i ≡ None }
        ensures marks { (x : List ℕ) (j : ℕ) → marked_in (stored_of result) x j ≡ false }
    {
        Chains {
            alloc,
            keys: KeyTable::new(alloc),
            records: Vec::new(alloc),
            spans: SpanMarks::new(alloc),
            forgotten: 0,
            changed: 0,
        }
    }

    /// The record of a key, where it has one, and its number.
    pub(crate) fn record(&self, key: &Key) -> Option<(usize, &Record)>
        ensures { MatchOption result (HasNoRecord self.now key.now) (λ r. IsRecordOf self.now key.now r.1.now) }
    {
        let number = self.keys.number_of(key)?;
        Some((number, &self.records[number]))
    }

    /// The version of the key with the greatest timestamp at or below `t`.
    pub(crate) fn newest_at(&self, key: &Key, t: u64) -> Option<&Version>
        ensures { MatchOption result (IsNoneUpTo (chain_of (stored_of self.now) key.now) t) (λ v. IsNewestOf (chain_of (stored_of self.now) key.now) t v.now) }
    {
        let (_, record) = self.record(key)?;
        record.chain.newest_at(t, &mut Steps::new())
    }

    /// The keys of the span that have a version, rising, each with its chain.
    pub(crate) fn in_span<'a>(&'a self, span: &'a Span) -> InSpan<'a>
        ensures { AreFound span.now (stored_of self.now).entries result }
    {
        InSpan {
            numbers: numbers_in(&self.keys, span),
            records: &self.records,
        }
    }

    /// Adds a record of this chain. Its readers begin with the latest of the spans.
    fn add(&mut self, key: &Key, chain: Chain) -> Result<usize, AllocError>
        requires new { number_in self.old.keys key.now ≡ None }
        ensures number { IfOk result (IsNumberOf self.new.keys key.now) }
        ensures chains { OnOk result (IsPut (stored_of self.old) (stored_of self.new) key.now chain) }
        ensures err { OnErr result (HaveSameChains (stored_of self.old) (stored_of self.new)) }
        ensures marks { HaveSameMarks (stored_of self.old) (stored_of self.new) }
        ensures forgotten { self.new.forgotten ≡ self.old.forgotten }
    {
        let readers = Readers::of(self.alloc, self.spans.latest(key));
        self.records.reserve(1)?;
        let number = self.keys.add(key, self.records.len())?;
        place(&mut self.records, number, Record { chain, readers });
        self.changed = self.changed.saturating_add(1);
        Ok(number)
    }

    /// The number of the key, which has a record then.
    fn number_for(&mut self, key: &Key, spot: Spot) -> Result<usize, AllocError>
        ensures number { IfOk result (IsNumberOf self.new.keys key.now) }
        ensures chains { HaveSameChains (stored_of self.old) (stored_of self.new) }
        ensures marks { HaveSameMarks (stored_of self.old) (stored_of self.new) }
        ensures forgotten { self.new.forgotten ≡ self.old.forgotten }
    {
        match self.keys.number_again(key, spot.number) {
            Some(number) => Ok(number),
            None => self.add(key, Chain::none(self.alloc)),
        }
    }

    /// Puts an undecided version in, in whose place one may stand, unless a reader above it has read the version below it.
    /// The value is copied only then.
    pub(crate) fn write(
        &mut self,
        key: &Key,
        ts: Ts,
        after: Option<&Value>,
    ) -> Result<Placed, AllocError>
        ensures ok { IfOk result (IsPlacedIn (stored_of self.old) (stored_of self.new) key.now (record { ts = ts; after = option_copied after.entry; committed = false })) }
        ensures err { OnErr result (HaveSameChains (stored_of self.old) (stored_of self.new)) }
        ensures free { OnErr result (IsCrossedIn (stored_of self.old) key.now ts → ⊥) }
        ensures marks { HaveSameMarks (stored_of self.old) (stored_of self.new) }
    {
        let number = self.keys.number_of(key);
        if self.is_crossed(key, number, ts.get()) {
            return Ok(Placed::Crossed);
        }
        let version = Version::undecided(ts, after)?;
        let Some(number) = number else {
            let chain = Chain::of(self.alloc, version)?;
            let _ = self.add(key, chain)?;
            return Ok(Placed::New);
        };
        let new = self.records[number].chain.write(version)?;
        Ok(if new { Placed::New } else { Placed::Over })
    }

    /// Whether a reader above `t` has read the version of the key below it. The number is the key's, where it has one.
    fn is_crossed(&self, key: &Key, number: Option<usize>, t: u64) -> bool
        requires number { number ≡ number_in self.now.keys key.now }
        requires own { IfSome number (λ n. IsOwn self.now.keys key.now n) }
        ensures { IsTrue result ↔ IsCrossedIn (stored_of self.now) key.now t }
    {
        match number {
            None => self.spans.latest(key) > t.max(self.forgotten),
            Some(number) => self.records[number].is_crossed(t, self.forgotten),
        }
    }

    /// Marks a version, where there is one, as committed.
    pub(crate) fn commit(&mut self, key: &Key, ts: u64)
        ensures changed { IsChangedAt (stored_of self.old) (stored_of self.new) key.now ts (option_map as_committed) }
        ensures marks { HaveSameMarks (stored_of self.old) (stored_of self.new) }
    {
        if let Some(number) = self.keys.number_of(key) {
            self.records[number].chain.commit(ts);
        }
    }

    pub(crate) fn commit_all(&mut self, keys: Keys<'_>, ts: u64)
        ensures changed { AreChangedAt (stored_of self.old) (stored_of self.new) keys.entry ts (option_map as_committed) }
        ensures marks { HaveSameMarks (stored_of self.old) (stored_of self.new) }
    {
        for key in keys {
            self.commit(key, ts);
        }
    }

    /// Takes a version out, where there is one.
    pub(crate) fn remove(&mut self, key: &Key, ts: u64)
        ensures changed { IsChangedAt (stored_of self.old) (stored_of self.new) key.now ts (λ _. None) }
        ensures marks { HaveSameMarks (stored_of self.old) (stored_of self.new) }
    {
        if let Some(number) = self.keys.number_of(key) {
            self.records[number].chain.remove(ts);
            self.free_idle(number);
        }
    }

    pub(crate) fn remove_all(&mut self, keys: Keys<'_>, ts: u64)
        ensures changed { AreChangedAt (stored_of self.old) (stored_of self.new) keys.entry ts (λ _. None) }
        ensures marks { HaveSameMarks (stored_of self.old) (stored_of self.new) }
    {
        for key in keys {
            self.remove(key, ts);
        }
    }

    pub(crate) fn has(&self, key: &Key, ts: u64) -> bool
        ensures { result ≡ is_some (found_in (stored_of self.now) key.now ts) }
    {
        match self.newest_at(key, ts) {
            None => false,
            Some(version) => version.ts.get() == ts,
        }
    }

    /// Drops the versions of a key that are dead by the horizon, takes it out of the index there, and says how many they are.
    pub(crate) fn drop_dead(&mut self, key: &Key, horizon: u64, index: &mut Index) -> u64
        ensures thinned { IsThinnedAt (stored_of self.old) (stored_of self.new) key.now horizon }
        ensures counted { (n : ℕ) → IsCountOf (stored_of self.old) n → (result ≤ n) × IsCountOf (stored_of self.new) (n - result) }
        ensures listed { (y : List ℕ) (i : ℕ) → is_listed index.new y i
            ≡ (if bytes_eq key.now y && is_dead_in (stored_of self.old) horizon y i then false else is_listed index.old y i) }
        ensures taken { AreTakenAlike index.old index.new }
        ensures marks { HaveSameMarks (stored_of self.old) (stored_of self.new) }
    {
        let Some(number) = self.keys.number_of(key) else {
            return 0;
        };
        let dropped = self.records[number].chain.drop_dead(horizon, key, index);
        self.free_idle(number);
        dropped
    }

    /// Whether a record may go: it has no version, and neither it nor the spans have a reader of its key that isn't forgotten.
    fn may_go(&self, number: usize) -> bool
        requires { number < length self.now.records.items }
        ensures { result ≡ true → MayGo self.now number }
    {
        if !self.records[number].is_idle(self.forgotten) {
            return false;
        }
        match self.keys.key_of(number) {
            None => false,
            Some(key) => self.spans.latest(key) <= self.forgotten,
        }
    }

    /// Frees a record that may go.
    fn free_idle(&mut self, number: usize)
        requires { number < length self.old.records.items }
        ensures chains { HaveSameChains (stored_of self.old) (stored_of self.new) }
        ensures marks { HaveSameMarks (stored_of self.old) (stored_of self.new) }
        ensures swept { IsSweptFrom self.old self.new }
    {
        if self.may_go(number) {
            self.keys.free_at(number);
            self.records[number] = Record {
                chain: Chain::none(self.alloc),
                readers: Readers::new(self.alloc),
            };
        } else if self.records[number].chain.is_empty() {
            self.changed = self.changed.saturating_add(1);
        }
    }

    /// Takes out each reader that is forgotten, and frees each record that may go.
    fn sweep(&mut self)
        ensures chains { HaveSameChains (stored_of self.old) (stored_of self.new) }
        ensures marks { HaveSameMarks (stored_of self.old) (stored_of self.new) }
        ensures swept { AreSwept self.new }
    {
        self.spans.forget_through(self.forgotten);
        for number in 0..self.records.len() {
            self.records[number].readers.forget_through(self.forgotten);
            self.free_idle(number);
        }
        self.changed = 0;
    }

    /// Sweeps before a reader that counts as forgotten, which can't be kept, and where many records came, or lost their last
    /// version. Mostly these are two comparisons.
    #[inline(always)]
    fn make_room_for(&mut self, ts: u64)
        requires { 0 < ts }
        ensures chains { HaveSameChains (stored_of self.old) (stored_of self.new) }
        ensures marks { HaveSameMarks (stored_of self.old) (stored_of self.new) }
        ensures late { self.new.forgotten < ts }
    {
        if ts <= self.forgotten || self.changed >= LEAST_SWEEP.max(self.records.len() / 4) {
            self.sweep();
            self.forgotten = self.forgotten.min(ts - 1);
        }
    }

    /// Of the key's readers above `above` and up to `until`, and `ts`, the greatest alone stays.
    pub(crate) fn mark(
        &mut self,
        key: &Key,
        spot: Spot,
        ts: u64,
        above: u64,
        until: u64,
    ) -> Result<(), AllocError>
        requires low { above < ts }
        requires high { ts ≤ until }
        ensures ok { OnOk result (IsMarkedAt (stored_of self.old) (stored_of self.new) key.now ts above until) }
        ensures err { OnErr result (HaveSameMarks (stored_of self.old) (stored_of self.new)) }
        ensures chains { HaveSameChains (stored_of self.old) (stored_of self.new) }
    {
        self.make_room_for(ts);
        let number = self.number_for(key, spot)?;
        self.records[number]
            .readers
            .note(ts, above, until, self.forgotten)
    }

    /// Notes the read of a span: in each of its records, and of all other keys by the span. Room is made first, so that the
    /// records are noted without memory.
    pub(crate) fn mark_all(&mut self, span: &Span, ts: u64) -> Result<(), AllocError>
        requires { 0 < ts }
        ensures ok { OnOk result (AreMarkedAt (stored_of self.old) (stored_of self.new) span.now ts) }
        ensures err { OnErr result (HaveSameMarks (stored_of self.old) (stored_of self.new)) }
        ensures chains { HaveSameChains (stored_of self.old) (stored_of self.new) }
    {
        self.make_room_for(ts);
        Self::make_room(&self.keys, &mut self.records, span)?;
        self.spans.raise(span, ts)?;
        Self::note_each(&self.keys, &mut self.records, span, ts, self.forgotten);
        Ok(())
    }

    /// Makes room for one more reader in each record of the span.
    fn make_room(keys: &KeyTable, records: &mut Vec<Record>, span: &Span) -> Result<(), AllocError>
        requires { AreLow keys.now (length records.old.items) }
        ensures chains { chains_in records.new.items ≡ chains_in records.old.items }
        ensures readers { readers_in records.new.items ≡ readers_in records.old.items }
        ensures room { OnOk result (HaveRoom keys.now records.new.items span.now) }
    {
        for (_, number) in numbers_in(keys, span) {
            records[*number].readers.make_room()?;
        }
        Ok(())
    }

    /// Notes the read of `ts` in each record of the span, in the gap that it has there. There is room.
    fn note_each(keys: &KeyTable, records: &mut Vec<Record>, span: &Span, ts: u64, forgotten: u64)
        requires low { AreLow keys.now (length records.old.items) }
        requires late { forgotten < ts }
        requires room { HaveRoom keys.now records.old.items span.now }
        ensures { AreNoted keys.now records.old.items records.new.items span.now ts forgotten }
    {
        for (_, number) in numbers_in(keys, span) {
            records[*number].note(ts, forgotten);
        }
    }

    /// Each reader up to `ts` counts as none.
    pub(crate) fn forget_through(&mut self, ts: u64)
        ensures marks { (x : List ℕ) (j : ℕ) → marked_in (stored_of self.new) x j ≡ (nat_lt ts j && marked_in (stored_of self.old) x j) }
        ensures chains { HaveSameChains (stored_of self.old) (stored_of self.new) }
    {
        self.forgotten = self.forgotten.max(ts);
    }
}

/// Puts a record in the place of a number, which may be the first above all that there are.
fn place(records: &mut Vec<Record>, number: usize, one: Record)
    requires room { vec_len records.old < vec_capacity records.old }
    requires low { number ≤ length records.old.items }
    ensures { IsPlaced records.old.items records.new.items number one }
{
    if number < records.len() {
        records[number] = one;
    } else {
        records.push_reserved(one);
    }
}
