//! Events checked one at a time.
ghost use Rattle.std.specs.Prelude.{◌≡◌, ◌↔◌, ◌≤◌, [], true, false, IfOk, OnErr};
ghost use Rattle.timestamps.specs.declared.ts.TheConstants.{MAX};
ghost use Rattle.trace_check.specs.Traces.{Dumps, StandsFor, JudgesNext, MayLackNext, Reports, TakesNext, IsInPlace};

use crate::taking::take_in;
use plain_database::database::PlainDatabase;
use plain_database::dump::Dump;
use spans::{Event, Report};
use std::alloc::{AllocError, Global};

/// The events that were taken so far are legal and have no gap. It holds what they left, and not the events.
pub struct Checker {
    database: PlainDatabase,
    /// The latest event's position, if there was one.
    last: Option<u64>,
}

// for the proof, which has no case for each part of it where a checker is dropped
impl Drop for Checker {
    fn drop(self) {
        let Checker {
            database: _,
            last: _,
        } = self;
    }
}

impl Checker {
    /// No event was taken yet.
    pub fn new(alloc: Global) -> Checker
        ensures { StandsFor result [] }
    {
        Checker {
            database: PlainDatabase::new(alloc),
            last: None,
        }
    }

    /// Whether the events are still legal and without a gap with this one behind them. Where they are, it is taken.
    pub fn take(&mut self, event: &Event) -> Result<bool, AllocError>
        ensures right { IfOk result (JudgesNext self.old event.now) }
        ensures taken { IfOk result (TakesNext self.old self.new event.now) }
        ensures refused { IfOk result (λ right. right ≡ false → self.new ≡ self.old) }
        ensures memory { OnErr result (self.new ≡ self.old) }
        ensures placed { OnErr result (IsInPlace self.old.last event.now.position) }
        ensures wanting { OnErr result (MayLackNext self.old event.now) }
    {
        if !is_in_place(self.last, event.position) || !take_in(&mut self.database, event)? {
            return Ok(false);
        }
        self.last = Some(event.position);
        Ok(true)
    }

    /// The report after the events that were taken: the whole one, or the live one.
    pub fn report(&self, whole: bool) -> Result<Report, AllocError>
        ensures report { IfOk result (Reports self.now whole) }
    {
        self.database.report(whole)
    }

    /// The dump after the events that were taken, which closes at `at` or above.
    pub fn dump(&self, at: u64) -> Result<Dump, AllocError>
        requires { at ≤ MAX }
        ensures dump { IfOk result (Dumps self.now at) }
    {
        self.database.dump(at)
    }
}

/// Whether an event may stand at a position, behind the latest one.
fn is_in_place(last: Option<u64>, position: u64) -> bool
    ensures { (result ≡ true) ↔ IsInPlace last position }
{
    match last {
        None => true,
        // a sum could pass the greatest number, a difference can't
        Some(last) => position.checked_sub(1) == Some(last),
    }
}
