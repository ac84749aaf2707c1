//! Commands, replies and events as lines of words: all of them written, and commands read.
//!
//! `sessions` and `embedded` read commands and write events by it. `script` takes the words of an event by its calls,
//! `jobs` writes faults, and `follow` spells keys.
//!
//! A line is words with one space between two, and a newline. `spelled_words` cuts it, and reads its words as numbers,
//! keys, values and spans. Its modules are passed on here. Each value has one text, and only that text is read.
//!
//! ```text
//! 0 put 10 a -             Ok((0, Put { ts: 10, key: "a", value: "" }))
//! 0 put 10 - %41           keylength: the first fault from the left counts
//! 0 put 10 a %41           badbyte: 41 is `A`, and spelled so
//! 7 0 get 10 a => none     the text of event 7
//! ```
//!
//! Costs, where a line has b bytes:
//!
//! - `read_command`: O(b); each byte is looked at twice, as words are cut and read. Those of a faulty line are looked
//!   at again, for the first fault
//! - `take_seat`, `take_form`, `take_arguments`: the bytes of their words, twice
//! - `write_command`, `write_reply`, `write_event`, `write_echo`, `write_fault`, `write_spent`: O(b), for the lines that
//!   they write
//!
//! A reader takes the words of a line that it is lent, and takes memory for long keys, values and bounds alone. A writer
//! pushes into the caller's buffer, takes memory where that has to grow, and where it finds none leaves that as it was.
//!
//! Tests: `unit_tests`, by the tables of the format.
#![tactic(auto)]

pub mod commands;
pub mod events;
pub mod laws;
pub mod replies;
pub mod table;

use json_lines::{buffer, numbers};
pub use spelled_words::{arguments, fault, spelling, words};
