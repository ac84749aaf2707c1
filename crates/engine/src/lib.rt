//! The database on one thread: every command of every seat, one at a time.
//!
//! [`Engine::step`] answers a seat's command by the layers below: the rules, which hold versions, marks of readers,
//! transactions, closed and the protections, and the feeds. A command that is no feed's is answered by the rules alone,
//! but a collection goes no further than the floors of the feeds. `shared_db` calls it under its lock, and `embedded`
//! without one. Its contract speaks of histories alone: an engine stands for a legal history, newest event first, and
//! after a step for one event more.
//!
//! 1. The layers hold what is kept of some legal history of as many events as there were steps. Nothing else ties them.
//! 2. A row lies in the store alone. A feed is a place, and each poll reads the rows beyond it, at or below closed. So it
//!    makes no difference whether a feed lived at the commit.
//! 3. A poll needs no version that is gone, because no collection passes the floor of a feed.
//!
//! ```text
//!                          undecided   versions of "a"   closed   horizon   feed 1
//! new                                                    0        0
//! open - - 0 by seat 1                                   0        0         at 0
//! begin 10 by seat 0       10                            0        0         at 0
//! put 10 a 1 by seat 0     10          10                0        0         at 0
//! commit 10 by seat 0                  10*               0        0         at 0
//! close 30 by seat 1                   10*               30       0         at 0
//! collect 30 by seat 1                 10*               30       0         at 0
//! poll 1 9 by seat 1                   10*               30       0         at 30   tells 10 a, resolved 30
//! collect 30 by seat 1                 10*               30       30        at 30
//! ```
//!
//! Costs, where n is all that is held, v, b and m the versions, the blocks and the marks of a key, and f the feeds that
//! live:
//!
//! - `begin`, `protect`, `release`, `open`, `cancel`: O(log n)
//! - `get`, `put`, `del`, `readat`: O(log n + log v log b + log m), and a move of the readers above the new one,
//!   or of the versions above it in its list or block
//! - `scan`, `scanat`: O(log n), as a get for each key with a record, and O(log n) for each start of a marked span
//! - `commit`, `abort`: O(log n + log v log b) for each key written
//! - `close`, `closehard`: O(log n), for each transaction that is forgotten too
//! - `collect`: O(log n) for each version written since the last horizon, up to its own; and for each key of these a
//!   look through one block, and at the starts of all
//! - `poll`: O(log n), and the searches of `catch_up`
//! - `stats`, `steps`, `closed`, `places`, `horizon`, `floor`: O(log n)
//! - `version_at`: O(log n + log v log b), for each undecided version above it too; `next_left`: the same for each that it
//!   passes over too, and a copy of the row
//! - `report`: O(log n) for each undecided transaction, each protection and each feed
//! - `scan_end`: O(log n), and as a `readat` for each key up to the end
//! - `poll_count`: as a few polls, of up to twice as many messages as find room, but 15 at least
//! - `is_long`: O(log n), and as `scan_end` or `poll_count`
//!
//! Memory: begin, get, scan, put, del, readat, scanat, protect, open and poll take it before anything changes. Without it
//! they answer so, and all is as it was. The other commands take none.
//!
//! Tests: `unit_tests`, `growth_tests`, `job_tests`.
#![tactic(auto)]

ghost use Rattle.std.specs.Prelude.{◌≡◌, ℕ, List, ◌∷◌, [], ◌+◌, ◌<◌, IfOk, false, length};
ghost use Rattle.engine.specs.Prelude.{Collect, Event, answer_of, IsReport, closed_of, effects_of, event};
ghost use Rattle.engine.specs.Layers.{HasHistory};

mod dumping;
mod feed_calls;
mod layers;
mod looking;
mod room;
mod running;

use crate::layers::Layers;
pub use looking::Places;
pub use room::MOST_ROWS;
use spans::{Cmd, Reply, Report};
use std::alloc::{AllocError, Global};

/// The layers, with a count of the commands that were answered.
pub struct Engine {
    layers: Layers,
    steps: u64,
    ghost stands: { ∥ HasHistory layers steps ∥₁ },
}

// for the proof, which has no case for each part of it where an engine is dropped
impl Drop for Engine {
    fn drop(self) {
        let Engine {
            layers: _,
            steps: _,
        } = self;
    }
}

impl Engine {
    ghost use Rattle.engine.specs.Engine.{StandsFor, closed_timestamp, steps_of};

    /// The engine of the empty history.
    pub fn new(alloc: Global) -> Engine
        ensures empty { StandsFor result [] }
        ensures none { steps_of result ≡ 0 }
    {
        Engine {
            layers: Layers::new(alloc),
            steps: 0,
        }
    }

    /// Answers a seat's command. A collection is answered as the definitions say: it never wants memory, though a history
    /// in which one did would be legal.
    pub fn step(&mut self, seat: u8, cmd: &Cmd) -> Reply
        requires room { steps_of self.old < 18446744073709551615 }
        ensures history { (h : List Event) (n : ℕ) → StandsFor self.old h → StandsFor self.new (event n seat cmd.now result ∷ h) }
        ensures collects { (h : List Event) (to : ℕ) → StandsFor self.old h → cmd.now ≡ Collect to → result ≡ answer_of (effects_of h) seat cmd.now }
        ensures steps { steps_of self.new ≡ steps_of self.old + 1 }
    {
        let reply = self.layers.step(seat, cmd);
        self.steps += 1;
        reply
    }

    /// How many commands it answered.
    pub fn steps(&self) -> u64
        ensures count { result ≡ steps_of self.now }
        ensures history { (h : List Event) → StandsFor self.now h → result ≡ length h }
    {
        self.steps
    }

    /// The closed timestamp.
    pub fn closed(&self) -> u64
        ensures count { result ≡ closed_timestamp self.now }
        ensures history { (h : List Event) → StandsFor self.now h → result ≡ closed_of (effects_of h) }
    {
        self.layers.rules.closed()
    }

    /// The report that an operator may ask for. It takes memory for the answer alone.
    pub fn report(&self) -> Result<Report, AllocError>
        ensures { (h : List Event) → StandsFor self.now h → IfOk result (IsReport false (effects_of h)) }
    {
        let Layers { rules, feeds } = &self.layers;
        Ok(Report {
            closed: rules.closed(),
            horizon: rules.horizon(),
            versions: rules.version_count(),
            removable: None,
            transactions: rules.undecided_report()?,
            protections: rules.closing().protections()?,
            feeds: feeds.report()?,
        })
    }
}
