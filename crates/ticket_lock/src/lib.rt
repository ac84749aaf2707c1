//! A ticket lock over one value, and the history that its turns make. `shared_db` is the caller.
//!
//! Each caller has a `Seat`. A turn gives its seat the value, and ends with an entry that names the seat. Three words
//! say whose turn it is, and one slot has the value while nobody has a turn.
//!
//! 1. The entries of all turns, in the order of their tickets, are the one history that the value stands for. It exists
//!    in the contracts alone.
//! 2. A seat has `seen` a beginning of that history. Its own entries there are `mine`.
//! 3. A floor that a seat reads is at least each floor that it knew.
//!
//! Two seats on a lock that began at 5:
//!
//! ```text
//!                    ticket serving floor  value    history
//! new(.., 5, 2)         5      5      0    at home  (none)
//! seat 0 has a turn     6      5      0    seat 0   (none)       seat 1: try_turn is Busy{5, 6}
//! raise_floor to 40     6      5     40    seat 0   (none)       seat 1: floor is 40, and it waits
//! end with entry a      6      6     40    at home  a            seat 0 has seen a, mine is a
//! seat 1 has its turn   7      6     40    seat 1   a            it has found a
//! ```
//!
//! Costs, in steps on words of the lock:
//!
//! - `turn`, where no other seat has one: a load and a compare-exchange of the ticket word, two loads of the serving word
//! - `turn`, where others have theirs: some looks by the one seat that spins, and a sleep by all others
//! - `end`: a store of the serving word and a look at the bed; a look, a store and a wake more, where a seat sleeps
//! - `try_turn`: four, or two or three where it is `Busy`
//! - `floor`, `raise_floor`: one
//! - `meet`: six
//! - `new`, `finish`: some for each seat
//!
//! A seat draws a ticket only where it is served at once, so no turn belongs to a thread that isn't running. Until then one
//! seat at a time spins, which a word says, and all others sleep on another word, the bed. A turn's end wakes one of them
//! unless a seat spins. Who runs may be served before one that has slept for longer. Only `new` takes memory, and only
//! `turn` waits.
//!
//! Tests: `session_tests`.
#![tactic(auto)]

mod chronicle;
mod finishing;
mod floors;
mod issuing;
mod lock;
mod meetings;
mod plays;
mod rule;
mod steps;
mod turns;

pub use chronicle::Chronicle;
pub use lock::{Denied, Held, Seat, SeatsMissing, Spent, TicketLock};
