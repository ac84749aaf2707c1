//! Tests of sessions that race, of threads that call one database or wait for one lock, and of seats with no thread
//! beside them. Nothing depends on this crate.
//!
//! They show facts that no clause states: that a run ends, that memory suffices where there is enough, that sessions
//! run at the same time, and that a thread finds the work of another. Gates hold sessions so that their calls come in a
//! wanted order.
//!
//! ```text
//! racing      sessions held by gates, so that one transcript alone is right
//! together    threads that call at once, and the engine that comes back with all their seats
//! apart       threads one after the other
//! tickets     turns of a lock one after the other: who is refused meanwhile, the floor, the last ticket
//! turns       a turn of a lock, during which another thread is refused
//! sleepers    seats that sleep at once, and are all woken
//! leases      eight sessions that take their timestamps from leases
//! seats       calls that wait for nobody, floors, and leases
//! texts       scripts and transcripts for all of them
//! counter     the value under the lock of these three, and its turns
//! ```
//!
//! A case of `racing`: session 1 waits until session 0 stands before its third call, and session 0 then waits there
//! until the one call of session 1 is made.
//!
//! ```text
//! session 0          session 1          the one right transcript
//! begin 10           (held)             0 0 begin 10 => started
//! put 10 a 1         (held)             1 0 put 10 a 1 => written
//! (held)             closehard 20       2 1 closehard 20 => closed 20 1
//! commit 10                             3 0 commit 10 => ended
//! ```
#![tactic(auto)]

#[cfg(test)]
mod tests;
