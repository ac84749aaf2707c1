//! A replica of a feed's span that is called by text, as programs in other languages call it: the line of the command
//! that opened the feed begins it, and the lines of the feed's messages go in.
//!
//! It knows no C. The static library `ripsawbean` is the caller: it keeps one behind each handle. The rules are those
//! of `replica`: which messages are taken, which rows there are, and when they are the map.
//!
//! 1. A line that isn't taken changes nothing.
//! 2. The rows are those that it began with, and those of the messages that were taken.
//!
//! ```text
//!                                                          answer             rows       through   complete at
//! open "0 open - - 5\n"                                    done               none       5         5
//! take {"after":"MQ==","key":"YQ==","updated":"10"}        done               a 1        9         -
//! take {"after":"MQ==","key":"YQ==","updated":"10"}        Message(NotAfter)  (as before)
//! take {"after":"MQ==",                                    Line(NotJson)      (as before)
//! ready {"after":"Mg==","key":"Yg==","updated":"20"}       19                 (as before)
//! take {"resolved":"30"}                                   done               a 1        30        30
//!
//! begin "0 open - - 30\n" "row a 1\n"                      done               a 1        30        30
//! begin "0 open b - 30\n" "row a 1\n"                      OutsideSpan        (no consumer)
//! ```
//!
//! Costs, where it has n rows:
//!
//! - `open`: its line
//! - `begin`: its two texts, and O(n log n)
//! - `take`, `ready`: its line, and O(log n)
//! - `get`: O(log n), and the bytes copied
//! - `rows`: the text of all rows
//! - `complete_through`, `at_resolved`: O(1)
//!
//! `open`, `take` and `ready` take memory for what their line has, and none for a resolved message. `take` takes it for
//! a row with a value once more, `get` for a key of more than 24 bytes, and `rows` for its text, which is given back at
//! once. `begin` takes it for its line and its rows.
//!
//! Tests: `unit_tests`, of `begin`; those of the wrappers in `embed`, by the built library.
#![tactic(auto)]

mod consumer;
mod rows;

pub use consumer::{BeginError, Consumer, SeedingError, TakeError};
