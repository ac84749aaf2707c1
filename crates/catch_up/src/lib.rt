//! The committed rows that a feed is told next, looked up in the store. `feed` is the caller.
//!
//! Each poll of a feed reads its rows from the versions. [`next_rows`] gives the first `n` committed rows of a span after
//! a place and at or below a timestamp, by timestamp and then by key. A feed that begins with a snapshot first tells
//! that, by [`next_snapshot`]: the first `n` keys of a span after a key that have a value at a timestamp, as rows at that
//! timestamp.
//!
//! ```text
//!  versions  5 a*   8 a*   8 b*   9 c   12 a*        a star marks a committed version
//!  span - -, after 8 a, through 10, n 2:  8 b
//!  span a b, after 4,   through 12, n 2:  5 a, 8 a
//!  span - -, at 8, after a, n 2:          8 b
//! ```
//!
//! There are two ways to the rows:
//!
//! - The store's index leads from version to version by timestamp, of all keys. For a narrow span that is far behind,
//!   it passes over the versions of other keys.
//! - The chains of the span's keys have the span's versions alone. A wide span has many chains to look at before its
//!   first row.
//!
//! [`next_rows`] walks the index, and searches the chain of a key that the span has, and of no other. From its 16th step on
//! it counts a key of the span for every eight, and turns to the chains once there is none left.
//!
//! Costs, in searches of the store, each O(log n) for n keys and timestamps:
//!
//! - `next_rows`: none where the place is at or above the timestamp. Else three, and one of a chain for each row told, plus
//!   the smaller of: a look at each version of other spans in between; 16 of these, and for each key of the span eight more
//!   and two searches
//! - `next_snapshot`: one for the first key, and one of a chain for each key from there to the last that is told, or to
//!   the span's end where fewer are found than are wanted
//! - a version of the span that isn't committed: one more, where it is passed
//!
//! Both calls take memory for the rows told. Where `next_rows` turns to the chains, it also takes memory for a place in
//! them for each row that it still wants, and for one more. `next_snapshot` also takes memory for a copy of the span.
//! Neither call changes anything, so one that runs out of memory leaves no trace.
//!
//! Tests: `unit_tests`, `job_tests`.
#![tactic(auto)]

mod heads;
mod rows;
mod snapshot;

pub use rows::next_rows;
pub use snapshot::next_snapshot;
