//! Reads at a closed timestamp, of what was committed there, which mark nothing; and protections of it.
ghost use Rattle.std.specs.Prelude.{ℕ, ◌≡◌, ◌<◌};
ghost use Rattle.mvto_rules.specs.Prelude.{Protect, ReadAt, Release, ScanAt, made_in};
ghost use Rattle.mvto_rules.specs.Scans.{horizon_refusal, snapshot_refusal};
ghost use Rattle.mvto_rules.specs.Holding.{Holds, Steps, closing_of, held};

use crate::reading::{is_named, rows_at};
use crate::rules::Rules;
use crate::sight::value_of;
use spans::{Refusal, Reply, Rows, Span};
use timestamps::Key;
use timestamps::ts::MAX;

impl Rules {
    /// A refusal where `t` is below the horizon: what was there may be gone.
    pub fn horizon_refusal(&self, t: u64) -> Option<Refusal>
        ensures { Holds self.now (λ k. result ≡ horizon_refusal k t) }
    {
        let horizon = self.horizon;
        (t < horizon).then_some(Refusal::BelowHorizon { horizon })
    }

    /// Why nothing is read at `t`.
    pub(crate) fn snapshot_refusal(&self, t: u64) -> Option<Refusal>
        ensures { result ≡ snapshot_refusal (held self.now) t }
    {
        let closed = self.closing.closed();
        if t > closed {
            return Some(Refusal::NotClosed { closed });
        }
        self.horizon_refusal(t)
    }

    /// Reads a key at a closed timestamp: the value that its newest version there left.
    pub fn read_at(&self, t: u64, key: &Key) -> Reply
        ensures step { (seat : ℕ) → Steps self.now self.now seat (ReadAt t key.now) result }
    {
        if let Some(refusal) = self.snapshot_refusal(t) {
            return Reply::Refused(refusal);
        }
        let newest = self.store.newest_at(key, t);
        is_named(newest);
        match value_of(newest) {
            Ok(after) => Reply::Found(after),
            Err(_) => Reply::Refused(Refusal::NoMemory),
        }
    }

    /// Reads the keys of a span at a closed timestamp: those whose newest version there has a value, with it.
    pub fn scan_at(&self, t: u64, span: &Span) -> Reply
        ensures step { (seat : ℕ) → Steps self.now self.now seat (ScanAt t span.now) result }
    {
        if let Some(refusal) = self.snapshot_refusal(t) {
            return Reply::Refused(refusal);
        }
        match rows_at(self.alloc, &self.store, span, t) {
            Ok(rows) => Reply::Rows(Rows::from_vec(rows)),
            Err(_) => Reply::Refused(Refusal::NoMemory),
        }
    }

    /// Protects a timestamp, and answers the protection's number.
    pub fn protect(&mut self, t: u64) -> Reply
        requires room { made_in (closing_of self.old) < 18446744073709551615 }
        ensures step { (seat : ℕ) → Steps self.old self.new seat (Protect t) result }
    {
        if t > MAX {
            return Reply::Refused(Refusal::TsRange);
        }
        if let Some(refusal) = self.horizon_refusal(t) {
            return Reply::Refused(refusal);
        }
        match self.closing.protect(t) {
            Ok(id) => Reply::Protected { id },
            Err(_) => Reply::Refused(Refusal::NoMemory),
        }
    }

    /// Ends a protection. It takes no memory.
    pub fn release(&mut self, id: u64) -> Reply
        ensures step { (seat : ℕ) → Steps self.old self.new seat (Release id) result }
    {
        if self.closing.release(id) {
            Reply::Released
        } else {
            Reply::Refused(Refusal::NoProtection)
        }
    }
}
