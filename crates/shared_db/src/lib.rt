//! One database for many threads: an engine under a ticket lock, and beside it an oracle, which leases timestamps that
//! no two threads share. `sessions` and `races` are the callers.
//!
//! A thread has a seat, by which it calls, and perhaps a pass, by which it draws from the oracle. A call takes the turn
//! of a ticket, makes one step of the engine, raises the floor to the timestamp that is then closed, and ends the turn
//! with an event whose position is the ticket.
//!
//! 1. All events make one legal history, and the engine stands for it. [`law::law_of_seats`] says that it is lawful.
//! 2. A seat's `seen` is the history up to its last call, or further where it met a seat that has seen more. Its `mine`
//!    are its own events.
//! 3. No two passes are leased the same timestamp.
//!
//! ```text
//! Db::open, first 5, two seats        history, the oldest first
//! seat 0: call begin 10               5 0 begin 10 => started          seen and mine: [5]
//! seat 1: call get 10 a               6 1 get 10 a => notowner         seen: [5, 6]   mine: [6]
//! seat 0: call put 10 a 1             7 0 put 10 a 1 => written        seen: [5, 6, 7] mine: [5, 7]
//! seat 1: try_call, while seat 0 has a turn: Busy { served, next }     both lists as before
//! seat 0: call commit 10, close 10    .. 9 0 close 10 => closed 10 0
//! seat 1: floor                       10, with no call of its own
//! meet(seat 0, seat 1)                seat 1 has seen all that seat 0 has
//! finish with both seats              the engine, which stands for the whole history
//! ```
//!
//! Costs, in steps on words of the lock and of the oracle, beside the engine's step:
//!
//! - `call`, `call_in_place`, where no other seat calls: seven. Two are on the ticket word, three on the serving word and
//!   one on the floor word, and one looks at a bed
//! - `try_call`: seven, or two or three where it is `Busy`
//! - `floor`: one; `meet`: six; `draw`: two; `meet_passes`: five
//! - `open`, `finish`: some for each seat
//!
//! Only `open` and the engine's steps take memory, and only `call` and `call_in_place` wait.
//!
//! Tests: `session_tests`.
#![tactic(auto)]

mod calls;
mod config;
mod db;
pub mod law;
mod served;
mod sharing;

pub use calls::{CallDenied, Spent};
pub use config::{Config, OpenError};
pub use db::{Db, Seat, SeatsMissing};
pub use served::Served;
