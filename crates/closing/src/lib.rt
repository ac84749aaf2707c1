//! Up to where timestamps are closed, and the protections that hold a collection back. `mvto_rules` is the caller.
//!
//! At or below the closed timestamp nothing changes any more. A collection drops versions at or below its horizon that no
//! read at or above it needs. A protection keeps the horizon at or below its timestamp.
//!
//! 1. The closed timestamp never falls.
//! 2. A protection has a number, from 1 on in the order of making, and the timestamp that it protects. No number is
//!    given twice.
//! 3. The protections stand in a map by number, where one is released, and in a set by timestamp, whose first is the
//!    least protected timestamp. Both have the same protections.
//!
//! ```text
//!                             closed   by number          by timestamp
//! close 30, 20 undecided      19
//! protect 25 -> 1             19       1: 25              (25, 1)
//! protect 12 -> 2             19       1: 25, 2: 12       (12, 2) (25, 1)      the least is 12
//! close_hard 28               28       1: 25, 2: 12       (12, 2) (25, 1)
//! release 2 -> true           28       1: 25              (25, 1)              the least is 25
//! close 10, none undecided    28       1: 25              (25, 1)
//! ```
//!
//! Costs, where n protections stand:
//!
//! - `close`, `close_hard`, `closed`, `made`: O(1)
//! - `protect`, `release`, `least_protection`: O(log n)
//! - `protections`: O(n)
//!
//! `protect` takes memory, for a place in the map and one in the set, and `protections` for its answer. Others take none.
//!
//! Tests: `layer_tests`.
#![tactic(auto)]

mod closing;

pub use closing::Closing;
