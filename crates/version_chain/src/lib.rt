//! The record of every key: its versions, each the value or delete that a transaction wrote there and whether it has committed,
//! and its readers. `mvto_rules` calls it, and `catch_up` for feeds that are behind.
//!
//! A [`Store`] is a table that numbers keys, a list with the record of each number, the latest reader by spans for keys without
//! a record, and beside them an index from timestamps to keys. A record is a [`Chain`](chain::Chain) of versions, which is a
//! list, or a list of blocks where it is long, and its readers. A transaction's version is undecided until it commits. The keys
//! of a timestamp in the index are what its transaction wrote, so no other set of them is kept. `versions_after` begins a
//! [`VersionsAfter`], which goes from one version to the next by the index alone.
//!
//! 1. A key has a record where it has a version, or was read by itself, or was read while it had one. Any other key has no
//!    version, and of its readers only the latest can refuse a write, so that one stands for all.
//! 2. The index lists a key at a timestamp exactly where the key has a version there, and keeps no empty entry.
//! 3. Nothing is dead by the horizon that the store keeps: the horizon of the last collection, or a lower one where a
//!    version has been committed below that since.
//! 4. A record goes where it has no version, and no reader of its key is left above what is forgotten. Then the latest of the
//!    spans says as much of the key as it did.
//!
//! ```text
//! * is committed, in brackets the readers
//!                               "apple"       "pear"      spans      index                 versions
//! write apple, pear at 30       30            30                     30 apple pear         2
//! write apple at 10             10 30         30                     10 apple, 30 ..       3
//! commit 10                     10* 30        30                     10 apple, 30 ..       3    newest_at apple, 29 is 10*
//! mark all at 20                10* 30 (20)   30 (20)     from - 20  10 apple, 30 ..       3    write apple at 15 is crossed, by 20
//! commit 30                     10* 30* (20)  30* (20)    from - 20  10 apple, 30 ..       3    after 30 apple comes 30 pear
//! forget 20, drop what is dead  30* (20)      30* (20)    from - 20  30 apple pear         2    of 20 nothing is told any more
//! ```
//!
//! Costs, with k keys, v versions of one of them in b blocks, and n of all. A key is found in O(1), or in O(log k) where
//! no hint of the table leads to it:
//!
//! - `newest_at`, `next_above`, `around`, `committed_at`: O(log v log b), and at most as many timestamps as v has binary digits
//! - `write`: the same, O(log k) for a key that had no record, and O(log n) in the index. Where a reader is above it, it
//!   first searches readers and chain. For its place it looks at the end of the chain, and searches where that is above.
//!   The versions above its own in its block move, and the starts of the blocks behind it rise
//! - `mark`: O(log m) with m readers of the key, and O(log k) for one that had no record. At the spot that `around` gave the
//!   key is compared once, and not searched
//! - `mark_all`: O(log k), `around` and `mark` for each record of the span, and O(log s) for each start between its bounds
//! - `commit`: O(log n) in the index, and O(log v log b) for each key written at its timestamp
//! - `abort`: the same, O(log k) where the last version of a key goes, and what a write moves
//! - `written_at`: O(log n); `versions`: O(1)
//! - `versions_after`: O(log n), and then O(1) for each version that is asked for
//! - `in_span`: O(log k), and then each key as it is asked for
//! - `drop_dead`: O(log n) for each version that was written since the horizon that the store keeps, up to its own, and
//!   for each that goes; and for each key that it meets the starts of all blocks
//!
//! A chain lies in one list until it has more than 256 versions, and in blocks from then on. A block has at most 256,
//! unless a halving ran out of memory. Blocks are never joined, so b is at most one, and one more for each 128 versions
//! that were written. A collection looks at the versions at or below the horizon of the keys that it meets, and at those that
//! lie in one list or block with them.
//!
//! Writes and marks alone take memory, and a write that is crossed takes none. A write that finds none for its place in
//! the index takes its version out again, and a scan makes room in each record before it notes its read in the first.
//! The memory of a record goes with it, and the list and the table keep their room for keys that come later. Where as
//! many records as are a quarter of all came or lost their last version, 16,384 at the least, the next mark goes over
//! all of them and lets those go that may.
//!
//! Tests: `layer_tests`.
#![tactic(auto)]

mod block;
mod blocks;
pub mod chain;
mod chains;
pub mod in_span;
mod index;
mod record;
mod steps;
mod store;
mod versions;
mod versions_after;

pub use chains::Spot;
pub use steps::Steps;
pub use store::{Store, Wrote};
pub use versions_after::VersionsAfter;
