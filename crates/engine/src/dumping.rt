//! The rows that a dump of the database has still to write, one after the other. Each takes memory for itself alone.
//!
//! ```text
//! 10 wrote a, 20 a and b; 30 deleted b and wrote c; 25 wrote a and is undecided; closed and the horizon are 20
//!
//! behind          through 99                          through 29
//! 0               20 a, because 10 a is dead          20 a
//! a at 20         20 b                                20 b
//! b at 20, or 20  30 b, a delete above the horizon    none, because 25 a is undecided
//! b at 30         30 c                                none
//! ```
ghost use Rattle.std.specs.Prelude.{◌≡◌, IfOk, List};
ghost use Rattle.std.specs.Option.{option_copied};
ghost use Rattle.engine.specs.Prelude.{Event, effects_of};
ghost use Rattle.engine.specs.Looking.{next_left};
ghost use Rattle.engine.specs.Engine.{StandsFor};

use crate::Engine;
use catch_up::next_rows;
use spans::Span;
use std::alloc::{AllocError, Global};
use std::iter::Iterator;
use timestamps::{Key, Row};

impl Engine {
    /// The first row that is left behind a place, at or below `through`: of the committed versions that aren't dead, by
    /// timestamp and then by key. The place is that of `key` at `ts`; without a key it is behind all keys of `ts`.
    pub fn next_left(
        &self,
        alloc: Global,
        ts: u64,
        key: Option<&Key>,
        through: u64,
    ) -> Result<Option<Row>, AllocError>
        ensures { (h : List Event) → StandsFor self.now h → IfOk result (λ row. row ≡ next_left (effects_of h) ts (option_copied key.entry) through) }
    {
        let store = self.layers.rules.versions();
        let all = Span { lo: None, hi: None };
        // no version in the store is dead
        let rows = next_rows(alloc, store, &all, ts, key, through, 1)?;
        Ok(rows.into_iter().next())
    }
}
