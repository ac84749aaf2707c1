//! A feed is followed: lines of JSON come in, and what is told of the rows of the feed's span goes out.
//!
//! `mvfeed` calls [`follow_io`] with its standard input and output, and another program that has bytes from elsewhere
//! calls it in the same way. `command_line` makes the [`FollowOptions`], with [`span_of`] for the words of a span and
//! [`seed_of`] for rows to begin with, which a transcript's last scan found. Following ends with a [`FollowEnd`]. The rows
//! themselves are kept by `replica`, and a reader of JSON is in `json_lines`.
//!
//! 1. What a replica refuses ends it, so what is told is never wrong. `followed_at` in `specs/Following.antt` says which
//!    messages are taken of an input, and at which line that ends.
//! 2. What a message resolves is told once it was applied, and rows only where the replica is complete. `IsFollowReport`
//!    in `specs/Reports.antt` says what is told of the messages, byte for byte.
//! 3. All that is told of one message is kept before any of it is written. So a message for which memory is wanted leaves
//!    nothing on the output, and all before it their whole reports.
//! 4. The bytes read, the bytes written and the end say together how it went: `IsFollowed` in `specs/Ends.antt`. A read
//!    that failed is the end `Input`, a write that failed is `Output`, and no other end comes of either.
//! 5. What waits is written before each read, since a read may wait; tests say so, and no clause can. Behind each line
//!    less than a block waits.
//!
//! ```text
//! read                                              written, with the rows
//! {"after":"MQ==","key":"YQ==","updated":"10"}
//! {"resolved":"10"}                                 resolved 10 1\nrow a 1\n
//! 11 0 poll 1 10 => messages 1                      (no JSON: passed over)
//! {"resolved":"9"}                                  fault 4 23 resolvedback\n
//!                                                   ends Fault, at line 4
//! ```
//!
//! Costs:
//!
//! - `follow_io`: for each message its bytes and a look-up; for a resolved one also each row, where rows are told
//! - `seed_of`: the transcript's bytes, and a copy of the last scan's rows
//! - `span_of`: the words' bytes
//!
//! All take memory. A follower keeps the rows, a block of input and a block of output, and where changes are told the
//! keys that changed. While a message is told its whole report waits twice: as it is made, and as it is kept to be written.
//! With `--view` that is the text of all rows.
//!
//! Tests: `job_tests`.
#![tactic(auto)]

mod choice;
mod ending;
mod fault;
mod follow;
mod follower;
mod options;
mod seed;
mod span_words;
mod telling;
mod texts;

pub use ending::FollowEnd;
pub use fault::FollowFault;
pub use follow::follow_io;
pub use options::{FollowOptions, Shown, Start};
pub use seed::{Seed, SeedError, seed_of};
pub use span_words::span_of;
