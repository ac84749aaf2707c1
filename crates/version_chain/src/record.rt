//! What is kept of one key: its versions and its readers.
ghost use Rattle.std.specs.Prelude.{◌≡◌, ◌↔◌, ◌<◌, ◌≤◌, ℕ, [], IfSome, IsTrue, true, false};
ghost use Rattle.std.specs.Option.{option_copied};
ghost use Rattle.version_chain.specs.Prelude.{IsCrossed, has_room, is_kept, readers_of};
ghost use Rattle.version_chain.specs.Stores.{IsNotedOn};
ghost use Rattle.version_chain.specs.Versions.{afters_of, ts_or};

use crate::chain::{Chain, Version};
use crate::steps::Steps;
use read_marks::Readers;

/// The versions of a key, and its readers.
#[derive(Drop)]
pub(crate) struct Record {
    pub(crate) chain: Chain,
    pub(crate) readers: Readers,
}

impl Record {
    /// Whether there is no version, and each reader is forgotten.
    pub(crate) fn is_idle(&self, forgotten: u64) -> bool
        ensures chain { result ≡ true → self.now.chain ≡ [] }
        ensures readers { result ≡ true → (j : ℕ) → is_kept forgotten (readers_of self.now.readers) j ≡ false }
    {
        self.chain.is_empty() && self.readers.are_forgotten(forgotten)
    }

    /// Whether a reader above `t` has read the version below it: that reader is not above the next version. Mostly no reader
    /// is above `t`, and then the chain isn't searched.
    pub(crate) fn is_crossed(&self, t: u64, forgotten: u64) -> bool
        ensures { IsTrue result ↔ IsCrossed (is_kept forgotten (readers_of self.now.readers)) (afters_of self.now.chain) t }
    {
        let above = t.max(forgotten);
        if !self.readers.any_between(above, None) {
            return false;
        }
        match self.chain.next_above(t, &mut Steps::new()) {
            None => true,
            Some(next) => self.readers.any_between(above, Some(next.ts.get())),
        }
    }

    /// Notes the read of a transaction, unless the version that it finds is its own. There is room.
    pub(crate) fn note(&mut self, ts: u64, forgotten: u64)
        requires late { forgotten < ts }
        requires room { has_room self.old.readers }
        ensures chain { self.new.chain ≡ self.old.chain }
        ensures noted { IsNotedOn (afters_of self.old.chain) (is_kept forgotten (readers_of self.old.readers)) (is_kept forgotten (readers_of self.new.readers)) ts }
    {
        let (newest, next) = self.chain.around(ts, &mut Steps::new());
        let above = ts_or(newest, 0);
        let until = ts_or(next, u64::MAX);
        if above != ts {
            let _ = self.readers.note(ts, above, until, forgotten);
        }
    }
}

fn ts_or(version: Option<&Version>, none: u64) -> u64
    ensures ts { result ≡ ts_or (option_copied version.entry) none }
    ensures low { IfSome (option_copied version.entry) (λ v. 1 ≤ v.ts) }
{
    match version {
        None => none,
        Some(version) => version.ts.get(),
    }
}
