//! Whole scripts and transcripts, read line by line.
//!
//! `jobs` is the caller: a race reads its script by it, and a check its transcript. The tests of engines and sessions
//! read their cases by it.
//!
//! A script is lines of commands. A transcript is its format's header and the texts of events: a first line with the
//! position, the command and its reply, and then the rows or messages that the reply counts, a line each.
//!
//! 1. All of the text is read, byte for byte, or its first fault is told, with the number of its line, unless memory
//!    runs out.
//! 2. Memory is taken for lines that came, and never for lines that a count promises.
//! 3. Memory is wanted for an event only where its first line, read up to `=>`, names a command with a key, a value or
//!    a span, or an answer with a value, or where a line follows that it counts.
//!
//! ```text
//! 1  0 0 begin 10 => started       Event { position: 0, seat: 0, cmd: Begin { ts: 10 }, reply: Started }
//! 2  1 0 scan 10 - - => rows 1     the reply's row is the line below
//! 3  row a 1                       Event { position: 1, .., reply: Rows [("a", "1")] }
//! 4  2 0 commit 10 => written 1    reply at line 4: `written` takes no number
//! ```
//!
//! `word_lines` reads the words of a line, and the commands. Rows alone, as a replica begins with them, are read by
//! `following::read_row` of each line, which `lines::first_line` cuts off.
//!
//! Costs, in looks at each byte:
//!
//! - words, as they are cut and read: twice
//! - a script's line: once more, to find its end
//! - a transcript's line: up to four times more, for its end, printable bytes, the number of words, and the place of
//!   `=>`
//!
//! Keys, values and bounds are copied once, and at most twice where bytes are escaped or stand in a line of JSON.
//!
//! `read_script` and `read_transcript` take memory for all calls or events. `Events::next` takes it for one event at a
//! time, and for an event of numbers alone it takes none. Nor does `Events::new`.
//!
//! Tests: `unit_tests`, by the tables of the format.
#![tactic(auto)]

pub mod events;
pub mod fault;
pub mod following;
mod headings;
pub mod laws;
pub mod lines;
mod reply_reading;
mod reply_table;
pub mod scripts;
pub mod transcripts;
