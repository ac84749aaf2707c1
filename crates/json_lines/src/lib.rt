//! Messages of a feed as lines of JSON, and back.
//!
//! `script` reads the messages of a transcript by it, and `follow` and `embedded_replica` those of a feed. `word_lines`
//! writes messages, and shares its number words and its buffers. `report_lines` shares those and its base64.
//!
//! A line is one object and a newline. Its members stand in byte order of their names, there are no spaces, a timestamp
//! is a number word in quotes, and bytes are base64 (RFC 4648, with padding). So each message has one line, and only
//! that line is read.
//!
//! ```text
//! {"after":"MQ==","key":"Yg==","updated":"10"}      Row { ts: 10, key: "b", after: Some("1") }
//! {"after":null,"key":"Yg==","updated":"20"}        Row { ts: 20, key: "b", after: None }
//! {"resolved":"30"}                                 Resolved(30)
//! {"resolved":"030"}                                number: no number word
//! { "resolved":"30"}                                shape: the line of no message
//! ```
//!
//! A message's line is taken apart in place: `texts_written` lends the members' texts, and `message_of` copies their
//! bytes. Only a line that isn't read so, and is UTF-8, is handed to `serde_json`, to find its first fault. The tests of
//! a line and their order stand in `specs/Tests.antt`.
//!
//! Costs, where a line has b bytes:
//!
//! - `read_message`: O(b); each byte of a message's line is looked at twice, and its key and value are copied twice. A
//!   faulty line has a tree built of it as well
//! - `write_message`, `write_message_line`: O(b), each byte once
//! - `number_of`, `put_number`: O(b), each digit once
//! - `put_base64`: O(b), each byte once
//! - `or_undo`: O(1)
//! - `copy_front`: O(bytes copied)
//!
//! `read_message` takes memory for a key and a value, at most twice each, and for the tree of a faulty line. It takes
//! none for a resolved message, and tells no want of it where a line isn't UTF-8. The writers take it where the buffer
//! has to grow, and leave that as it was where they find none. `number_of`, `or_undo` and `copy_front` take none.
//!
//! Tests: `unit_tests`.
#![tactic(auto)]

pub mod base64_text;
pub mod buffer;
mod fault;
mod message_line;
pub mod numbers;
mod reading;
mod texts;
mod tree;
mod written;

pub use fault::MessageFault;
pub use message_line::{write_message, write_message_line};
pub use reading::read_message;
