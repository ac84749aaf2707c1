//! The independent checker: whether a list of events is one that the definitions allow.
//!
//! `jobs` hands a [`Checker`](checker::Checker) the events one by one, the oldest first, and `races` calls [`check`],
//! which names the first that isn't right. A checker asks the
//! [`PlainDatabase`](plain_database::database::PlainDatabase), which is the definitions as one plain program, for the one
//! right answer after the events so far, and compares the reply with it exactly.
//!
//! 1. The database stands for the events taken so far, which are legal and have no gap.
//! 2. An event has to stand one place further than the event before. It is right where its reply is the answer.
//!    `nomemory` is right too, where the answer is no refusal and the command may want memory.
//! 3. An event that isn't right, or that runs out of memory, leaves the checker as it was. Only an event in its place runs
//!    out of it, where the answer is no refusal and the command may want memory.
//!
//! ```text
//! 7 0 begin 10 => started           right           10 is undecided
//! 8 0 put 10 a 1 => nomemory        right           nothing is written
//! 9 0 put 10 a 1 => written         right           version 10 of a
//! 10 0 commit 10 => committed 2     committed 1     No { position: 10 }
//!
//! 0 0 begin 10 => started           right           10 is undecided
//! 2 0 abort 10 => aborted           a gap           No { position: 2 }
//! ```
//!
//! Costs:
//!
//! - `Checker::new`: O(1)
//! - `Checker::take`: `answer` and `record` of `plain_database`, and one comparison of two replies
//! - `Checker::report`, `Checker::dump`: `report` and `dump` of `plain_database`
//! - `check`: a `take` for each event, up to the first that isn't right
//!
//! `take` takes memory for one answer at a time, and for the event's trace in the database; `report` and `dump` for what
//! they answer. A checker keeps no event.
//!
//! Tests: `job_tests`, `session_tests`.
#![tactic(auto)]

pub mod checker;
mod taking;

ghost use Rattle.std.specs.Prelude.{◌≡◌, ◌↔◌, ℕ, IfOk, OnErr};
ghost use Rattle.trace_check.specs.declared.Verdict.TheVariants.{Yes, No};
ghost use Rattle.trace_check.specs.Traces.{IsTrace, IsFirstWrong, MayLackIn};

use crate::checker::Checker;
use spans::Event;
use std::alloc::{AllocError, Global};

/// The verdict on a list of events.
#[derive(Clone, Copy, Debug, PartialEq, Eq)]
pub enum Verdict {
    /// The events are legal and have no gap.
    Yes,
    /// The events before the one of this position are legal and have no gap, and with it they aren't so.
    No { position: u64 },
}

/// Whether the events, the oldest first, are legal and have no gap.
pub fn check(alloc: Global, events: &[Event]) -> Result<Verdict, AllocError>
    ensures yes { IfOk result (λ v. (v ≡ Yes) ↔ IsTrace events.now) }
    ensures no { IfOk result (λ v. (position : ℕ) → v ≡ No position → IsFirstWrong events.now position) }
    ensures memory { OnErr result (MayLackIn events.now) }
{
    let mut checker = Checker::new(alloc);
    for event in events {
        if !checker.take(event)? {
            let position = event.position;
            return Ok(Verdict::No { position });
        }
    }
    Ok(Verdict::Yes)
}
