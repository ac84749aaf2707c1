//! The language of the database: spans of keys, and the commands, replies, messages and events that cross its edge.
//!
//! The definitions in `specs/` give each of them its meaning. Every crate that handles keys of a span or a command calls
//! it. Only `timestamps` lies below.
//!
//! A bound has 1 to 257 bytes, so that the place just above any key is one. A history is a list of events. The definitions
//! speak of their effects:
//!
//! ```text
//! event                                effect                 after it
//! 0 0 begin 10 => started              Begins 10 0            10 is undecided, and seat 0's
//! 1 0 put 10 a 1 => written            Writes 10 a (Some 1)   version 10 of a
//! 2 1 begin 20 => started              Begins 20 1            20 is undecided, and seat 1's
//! 3 1 get 20 a => blocked 10           NoEffect               no trace: 10 is undecided
//! 4 0 commit 10 => committed 1         Commits 10             version 10 is committed
//! 5 1 get 20 a => value 1              Reads 20 a (Some 1)    a write of a at 11..=19 is too late
//! ```
//!
//! Read `specs/` in the order of its `Lib.antt`: effects, transactions, versions and reads, streams and feeds,
//! collection; then the answer to each command, and which histories are legal. [`law::law_of_histories`] states the law
//! of legal histories, and `IsLawful` is that law in one word.
//!
//! Costs, where a bound or a key has b bytes:
//!
//! - `Span::contains`: O(b), two comparisons at most
//! - `Bound::new`, `Bound::copy`, `Bound::successor`, `Span::copy`: O(b), the bytes copied
//! - `Span::without`: O(b) for each key given, and two copies of each key of the span
//! - `Report::limit`: O(protections + feeds)
//! - `Kind::start`, `Kind::is_due`, `Rows::from_vec`, `Messages::from_vec`: O(1)
//!
//! A bound of more than 24 bytes takes memory, in the four calls that copy bytes, and `Span::without` for its list.
//!
//! Tests: `unit_tests`.
#![tactic(auto)]

pub mod bound;
pub mod calls;
pub mod kind;
pub mod law;
pub mod limits;
pub mod report;
pub mod span;
pub mod state;

pub use bound::{Bound, BoundError};
pub use calls::{Cmd, Event, Message, Messages, Refusal, Reply, Rows};
pub use kind::Kind;
pub use report::{FeedReport, ProtectionReport, Report, ToldRow, TransactionReport};
pub use span::Span;
pub use state::State;
