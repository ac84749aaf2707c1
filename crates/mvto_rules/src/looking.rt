//! What is told without a command: versions of keys, the oldest undecided transaction, how far timestamps have come,
//! and whether a command is refused.
ghost use Rattle.std.specs.Prelude.{◌≡◌, is_some, not};
ghost use Rattle.mvto_rules.specs.Prelude.{IsOldest, refusal};
ghost use Rattle.mvto_rules.specs.Holding.{IsReachedIn, kept_value_version, Holds};
ghost use Rattle.mvto_rules.specs.Scans.{snapshot_refusal};

use crate::rules::Rules;
use timestamps::Key;

impl Rules {
    /// The timestamp of the newest committed version of a key at or below `t`, where that has a value. It searches the
    /// key's chain once more for each undecided version above that one, and takes no memory.
    pub fn version_at(&self, t: u64, key: &Key) -> Option<u64>
        ensures { Holds self.now (λ k. result ≡ kept_value_version k key.now t) }
    {
        let mut at = t;
        while let Some(version) = self.store.newest_at(key, at) {
            let ts = version.ts.get();
            let committed = version.committed;
            if committed {
                return version.after.is_some().then_some(ts);
            }
            at = ts - 1;
        }
        None
    }

    /// The least timestamp that is undecided.
    pub fn oldest_undecided(&self) -> Option<u64>
        ensures { Holds self.now (λ k. IsOldest k.transaction result) }
    {
        self.txns.oldest_undecided()
    }

    /// The greatest timestamp that began or was closed.
    pub fn reached(&self) -> u64
        ensures { Holds self.now (λ k. IsReachedIn k result) }
    {
        let closed = self.closing.closed();
        match self.txns.greatest() {
            None => closed,
            Some(greatest) => closed.max(greatest),
        }
    }

    /// Whether a seat's transaction takes commands: it is the seat's own, and undecided.
    pub fn is_usable(&self, seat: u8, ts: u64) -> bool
        ensures { Holds self.now (λ k. result ≡ not (is_some (refusal k seat ts))) }
    {
        self.undecided(seat, ts).is_ok()
    }

    /// Whether a timestamp can be read at: it is closed, and not below the horizon.
    pub fn is_readable(&self, t: u64) -> bool
        ensures { Holds self.now (λ k. result ≡ not (is_some (snapshot_refusal k t))) }
    {
        self.snapshot_refusal(t).is_none()
    }
}
