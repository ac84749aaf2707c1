//! The definitions as one plain program, by which transcripts are checked: it computes the one right reply to each
//! command. `trace_check` is the caller.
//!
//! `answer` computes the reply to a command, and changes nothing. `record` takes in a command with its right reply. So
//! a checker can ask and compare before it goes on. [`versions`] has the transactions, and [`feeds`] the feeds that live
//! and the protections that stand. [`limit_law::law_of_limits`] states that a report's limit is how far a collection goes.
//!
//! 1. What is kept is the definitions' own data: of each transaction its seat, state, writes and reads, and then closed
//!    and the horizon. Beside it stand an index of who may have written each key, and the numbers of versions that are
//!    closed and that are dead, which only grow.
//! 2. No transaction, read or key is dropped. An abort or a closing changes one word of the store, and the versions of
//!    who is aborted are passed over.
//! 3. Messages told to feeds are forgotten, and each feed's place is kept.
//!
//! ```text
//!                    transactions                              index    closed
//! begin 10 (seat 0)  10 undecided                                       0
//! put 10 a 1         10 undecided, wrote a "1"                 a: 10    0
//! commit 10          10 committed, wrote a "1"                 a: 10    0
//! begin 20, get a    .., 20 undecided, read a from 10          a: 10    0
//! begin 15, put a    toolate: 20 read across 15, and 15 is aborted
//! begin 30, scan     .., 30 undecided, read all: a from 10     a: 10    0
//! begin 25, put b    toolate: 30 read across 25, since it read every key and found no b
//! closehard 40       20 and 30 are aborted, since they are undecided at or below closed     40
//! ```
//!
//! Costs of `answer` and `record`, where n transactions began, c of them above closed, and f feeds live. P finds the
//! newest version of a key: some logarithms of n and of the keys for each writer that it passes over.
//!
//! - `begin`, `commit`, `abort`: O(log n)
//! - `get`, `readat`: P, and a copy of the value
//! - `put`, `del`: O(log n), all reads of the transactions above, and copies of the key and the value
//! - `scan`, `scanat`: P for each key in the span, and a copy of each key and row
//! - `close`, `closehard`, `stats`: O(log n + c), and the transactions that a closing passes
//! - `collect`: P for each version between the two horizons, the feeds and the protections
//! - `poll`: O(f), and all writes of the transactions from the feed's place to the last that it tells, or to closed
//!   where it is told all; P for each key of a snapshot
//! - `protect`, `release`: the protections that stand; `open`, `cancel`: O(f)
//! - `report`: c, the protections and the feeds; a whole one also a `collect` up to closed, and for each feed a `poll`
//!   of all its rows
//! - `dump`: P for each committed version, and a copy of each
//!
//! So a transcript is slow to check that has many reads above a transaction which writes on, many aborted writers of
//! one key, or a long tail that is never closed.
//!
//! `answer` takes memory for rows, values, spans and messages, and `report` and `dump` for their lists. `record` takes
//! it for a begin, get, scan, put, del, protect, opening or poll that is accepted, and none for other commands.
//!
//! Tests: `job_tests`, by random transcripts that are checked.
#![tactic(auto)]

mod closings;
pub mod database;
pub mod dump;
mod feed_calls;
pub mod feeds;
pub mod limit_law;
mod reading;
mod report;
mod transactions;
pub mod versions;

use std::alloc::AllocError;

/// A value that took memory, or the error that there was none.
type Allocated<T> = Result<T, AllocError>;
