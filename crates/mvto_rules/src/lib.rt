//! The read and write rules of multiversion timestamp ordering, over versions with marks of readers, transactions, and what
//! is closed. [`Rules`] holds them and ties them, and answers each command that is no feed's. `engine` is the caller.
//!
//! 1. A read sees the newest version at or below its timestamp, and marks its reader. Another's undecided one stops it.
//! 2. A write is too late where a reader above it has read the version below it. Then its transaction is aborted.
//! 3. At or below closed all transactions have ended. They are forgotten, and so are the marks there.
//! 4. A snapshot is read between horizon and closed, and marks nothing.
//! 5. The horizon never falls. A collection moves it past neither closed, nor a protection, nor the least floor of the
//!    feeds, which the caller tells.
//! 6. A call's reply, and what becomes of what is held, are those of its command. Running out of memory changes nothing.
//!
//! What a transaction wrote is what has a version at its timestamp, and no other list of it is kept.
//!
//! A caller may ask with any seat and any number. Only `protect` asks for something: that fewer than
//! 18446744073709551615 protections were made.
//!
//! ```text
//!                          versions of "b"    readers of "b"   of "c"   closed
//! put 10 b, commit 10      10*                                          0
//! scan 30 from a           10*                30               30       0
//! get 40 b -> of 10        10*                40               30       0
//! put 50 b, commit 50      10* 50*            40               30       0
//! get 60 b -> of 50        10* 50*            40 60            30       0
//! put 45 b -> written      10* 45 50*         40 60            30       0       40 read below 45, and 60 above
//! put 35 b -> too late     10* 45 50*         40 60            30       0       40 has read 10
//! put 25 c -> too late     10* 45 50*         40 60            30       0       30 found that c has none
//! commit 30, commit 40     10* 45 50*         40 60            30       0
//! close 48 -> 44           10* 45 50*         60                        44      45 is undecided
//! close_hard 48 -> 48      10* 50*            60                        48      45 is aborted
//! read_at 46 b -> of 10    10* 50*            60                        48
//! ```
//!
//! Costs, where n transactions wrote w keys each, k keys have v versions and m readers each, s starts of spans are kept, and
//! p protections stand:
//!
//! - `begin`: O(log n)
//! - `get`: O(log n + log k + log v + log m), and the readers above its own move
//! - `write`: O(log n + log w + log k + log v + log m), O(log s) for a key that had no record, and a move of the versions above
//!   its own in their list or block, or as `abort`
//! - `scan`: O(log n + log k), O(log v + log m) for each key with a record, and O(log s) for each start between its bounds
//! - `commit`, `abort`: O(log n), and O(log k + log v) for each key written
//! - `close`: O(log n) for each transaction that goes; `close_hard`: also an abort of each that it takes back
//! - `protect`, `release`: O(log p)
//! - `read_at`: O(log k + log v); `scan_at`: O(log k), and O(log v) for each key that it meets
//! - `collect`: O(log n) for each version written since the last horizon, up to its own; and for each key of these a look
//!   through one block, and at the starts of all; `limit`: O(log p)
//! - `closed`, `horizon`: O(1); `undecided_report`: O(log n) for each undecided transaction
//! - `oldest_undecided`, `reached`: O(log n); `version_at`: O(log k + log v), for each undecided version above it too
//!
//! A read goes over all records where many of them came since it last did so. Memory: `begin`, reads, writes, `protect`
//! and `undecided_report` take it, but for writes that are too late and reads that are blocked. The others take none.
//!
//! Tests: `layer_tests`.
#![tactic(auto)]

mod collecting;
mod forgetting;
mod holdings;
mod looking;
mod reading;
mod report;
mod room;
mod rules;
mod sight;
mod snapshots;

pub use rules::Rules;
