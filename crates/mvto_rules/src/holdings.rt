//! What the rules hold, to be read: the versions, what is closed, the horizon, and counts.
ghost use Rattle.std.specs.Prelude.{◌≡◌, ◌≤◌};
ghost use Rattle.mvto_rules.specs.Prelude.{IsNumberOf, MAX, closed_in, is_open};
ghost use Rattle.version_chain.specs.Stores as stores;
ghost use Rattle.mvto_rules.specs.Holding.{closing_of, horizon_of, transactions_of, versions_of};

use crate::rules::Rules;
use closing::Closing;
use version_chain::Store;

impl Rules {
    /// The versions.
    pub fn versions(&self) -> &Store
        ensures { result.now ≡ versions_of self.now }
    {
        &self.store
    }

    /// The closed timestamp.
    pub fn closed(&self) -> u64
        ensures closed { result ≡ closed_in (closing_of self.now) }
        ensures low { result ≤ MAX }
    {
        self.closing.closed()
    }

    /// The horizon: below it, versions may be gone.
    pub fn horizon(&self) -> u64
        ensures { result ≡ horizon_of self.now }
    {
        self.horizon
    }

    /// The closed timestamp and the protections.
    pub fn closing(&self) -> &Closing
        ensures { result.now ≡ closing_of self.now }
    {
        &self.closing
    }

    /// How many versions there are.
    pub fn version_count(&self) -> u64
        ensures { stores.IsCountOf (versions_of self.now) result }
    {
        self.store.versions()
    }

    /// How many transactions are undecided.
    pub fn undecided_count(&self) -> u64
        ensures { IsNumberOf (λ t. is_open (transactions_of self.now t)) result }
    {
        self.txns.undecided()
    }
}
