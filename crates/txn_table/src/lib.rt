//! The table of transactions: of each that began and isn't forgotten, its owner, and how it stands.
//!
//! `mvto_rules` is the caller: it begins, looks up and ends transactions here. What they wrote stands in the versions.
//!
//! 1. The undecided ones stand apart, in a small ordered map from timestamp to seat. Who reads or writes is found there.
//! 2. A large map has the seat of each transaction, and its ending. While it is undecided, that says that it has
//!    committed. So a commit only takes it out of the small map, and an abort writes the large one too.
//! 3. A call that runs out of memory changes nothing.
//!
//! ```text
//!                          undecided           endings
//! begin 10 (seat 0)        10 of 0             10 of 0 committed
//! begin 20 (seat 1)        10 of 0, 20 of 1    10 of 0 committed, 20 of 1 committed    the oldest is 10
//! decide 10: committed     20 of 1             10 of 0 committed, 20 of 1 committed    the oldest is 20
//! decide 20: aborted       (none)              10 of 0 committed, 20 of 1 aborted
//! close 15: forget to 15   (none)              20 of 1 aborted
//! ```
//!
//! Costs, where n transactions stand, of which u are undecided:
//!
//! - `begin`, `greatest`: O(log n)
//! - `standing`: O(log u), and O(log n) where none is undecided there
//! - `decide`: O(log u), and O(log n) unless an undecided one commits
//! - `oldest_undecided`: O(log u); `undecided`: O(1)
//! - `undecided_through`: O(log u), and the timestamps that are read, in turn
//! - `forget_through`: O(log n) for each transaction that goes, and for the first that stays
//!
//! `begin` takes memory for a place in each map, and none where the timestamp has a transaction. The other calls take
//! none. Ending a transaction only takes it out of the small map, so it can't be refused.
//!
//! Tests: `layer_tests`, by the rules that use it.
#![tactic(auto)]

mod ending;
mod txns;
mod undecided;

pub use ending::Outcome;
pub use txns::Txns;
pub use undecided::Undecided;
