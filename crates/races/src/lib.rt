//! Sessions that race, each in a thread of its own, and the one history that they leave.
//!
//! `jobs` and tests call [`race_calls`] with the calls of a script. Beneath stand [`race`], for a database that is
//! there already, [`merge`], which puts the events of sessions together, and [`settle`], which ends the database and
//! merges its sessions' events.
//!
//! Memory is taken for the lists, and by each session for all of its events before its first call; then by the
//! database's calls, and by the sort of the events.
//!
//! 1. A session's events are all that its seat has made, which the type of [`Ended`] keeps.
//! 2. Its commands are its list, or a beginning of it where a call was refused since all positions were used.
//! 3. So where all seats are back, the events of all sessions are the one history, each position once and
//!    without a gap: `merge` refuses nothing, and the independent checker says yes.
//!
//! ```text
//! session 0: begin 10, put 10 a 1      session 1: begin 20, get 20 a
//!
//! thread 0            thread 1             one history
//! gate (0, 0)         gate (1, 0)
//! begin 10                                 0 0 begin 10 => started
//! gate (0, 1)         begin 20             1 1 begin 20 => started
//!                     gate (1, 1)
//!                     get 20 a             2 1 get 20 a => none
//! put 10 a 1          gate (1, 2)          3 0 put 10 a 1 => toolate
//! gate (0, 2)
//! ended: [0, 3]       ended: [1, 2]        merge: [0, 1, 2, 3]
//! ```
//!
//! Costs:
//!
//! - `race`: a thread for each session, and the database's call for each call
//! - `merge`: as a sort by position of all events
//! - `settle`: as `merge`, and the end of the database
//! - `race_calls`: the calls, once, and as `race` and `settle`
//!
//! Whether a race returns is not promised, nor in which way the calls of sessions mix.
//!
//! Tests: `session_tests`, `job_tests`.
#![tactic(auto)]

mod calls;
mod ended;
mod gate;
mod merging;
mod racing;
mod settling;

pub use calls::{FreshError, race_calls};
pub use ended::Ended;
pub use gate::{Gate, Open};
pub use merging::{MergeError, merge};
pub use racing::{RaceError, race};
pub use settling::settle;
