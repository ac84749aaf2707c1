//! What is told without a command: versions of keys, and how far the database has come. It takes no memory.
//!
//! ```text
//!                           oldest   closed   horizon   limit   reached   "a" at 40
//! new                                0        0         0       0         none
//! begin 10, put 10 a        10       0        0         0       10        none: it is undecided
//! commit 10, begin 30       30       0        0         0       30        10
//! put 30 a, close 50        30       29       0         29      30        10: 30 is undecided
//! abort 30, close 50                 50       0         50      50        10
//! protect 45, collect 50             50       45        45      50        none: it is below the horizon
//! ```
ghost use Rattle.std.specs.Prelude.{◌≡◌, List};
ghost use Rattle.engine.specs.Prelude.{Event, effects_of, horizon_of};
ghost use Rattle.engine.specs.Looking.{ArePlaces, feed_floor, known_version};
ghost use Rattle.engine.specs.Engine.{StandsFor};

use crate::Engine;
use crate::layers::Layers;
use timestamps::Key;

/// How far a database has come.
#[derive(Clone, Copy, Debug)]
pub struct Places {
    /// The closed timestamp.
    pub closed: u64,
    /// Below it nothing is read.
    pub horizon: u64,
    /// How far a collection can go now.
    pub limit: u64,
    /// The least timestamp that is undecided, where one is.
    pub oldest: Option<u64>,
    /// The greatest timestamp that began or was closed: each that is above it is free.
    pub reached: u64,
}

impl Engine {
    /// How far it has come.
    pub fn places(&self) -> Places
        ensures { (h : List Event) → StandsFor self.now h → ArePlaces (effects_of h) result }
    {
        let Layers { rules, feeds } = &self.layers;
        Places {
            closed: rules.closed(),
            horizon: rules.horizon(),
            limit: rules.limit(feeds.least_floor()),
            oldest: rules.oldest_undecided(),
            reached: rules.reached(),
        }
    }

    /// The horizon: below it, versions may be gone.
    pub fn horizon(&self) -> u64
        ensures { (h : List Event) → StandsFor self.now h → result ≡ horizon_of (effects_of h) }
    {
        self.layers.rules.horizon()
    }

    /// The floor of a feed, if it lives.
    pub fn floor(&self, feed: u64) -> Option<u64>
        ensures { (h : List Event) → StandsFor self.now h → result ≡ feed_floor (effects_of h) feed }
    {
        self.layers.feeds.floor(feed)
    }

    /// The timestamp of the newest committed version of a key at or below `t`, where that has a value. Below the horizon
    /// it is none.
    pub fn version_at(&self, t: u64, key: &Key) -> Option<u64>
        ensures { (h : List Event) → StandsFor self.now h → result ≡ known_version (effects_of h) key.now t }
    {
        if t < self.horizon() {
            return None;
        }
        self.layers.rules.version_at(t, key)
    }
}
