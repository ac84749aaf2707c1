//! A database that is called by text, as programs in other languages call it: the line of a command goes in, the text
//! of its event comes out. Or the command goes in as it is, and its answer comes out in numbers and bytes.
//!
//! The static library `ripsawbean` is the caller: it keeps one behind each handle, and has C's functions. A call reads
//! its line, makes the command's step and keeps the event. The event's text is written after that, and copied out as
//! often as it is asked for. A text may find no memory, or no room where it is copied to. That loses nothing: its event
//! stays until the next call is made. So the calls of several lines end at such a text.
//!
//! 1. The engine stands for a legal history, whose positions run from 0 without a gap.
//! 2. The last event is the newest of that history; there is none before the first call.
//! 3. The text is the last event's, or empty where it isn't written.
//!
//! ```text
//!                          answer            last event                     text
//! new                                        none                           empty
//! call "0 begin 10\n"      done              0 0 begin 10 => started        24 bytes
//! call "0 put 10 a\n"      Fault(WordCount)  (as before)                    (as before)
//! call "0 put 10 a 1\n"    Unwritten         1 0 put 10 a 1 => written      empty: it ran out of memory
//! write                    done              1 0 put 10 a 1 => written      26 bytes
//! make 0 Get { 10, "a" }   done              2 0 get 10 a => value 1        empty until it is asked for
//! answer                   kind 3, number 1  (as before)                    (as before)
//! copy_bytes               1                 (as before)                    (as before)
//! ```
//!
//! Costs:
//!
//! - `new`, `answer`, `last`: O(1); `copy_text`: the bytes copied
//! - `call`: its line, the engine's step, and the text of its event
//! - `call_lines`: the calls of the lines that are taken, and the bytes of their texts again
//! - `make`: the engine's step; `make_within`: also a look at what the answer would have
//! - `copy_bytes`: the bytes copied, and all messages or rows
//! - `write`: the text, where it isn't written; else O(1)
//! - `state`, `held_by`: the transactions that are undecided, the protections and the feeds, with a search for each, and
//!   its text, or those of the seat
//! - `places`, `floor`: O(log n), where n is all that the database holds
//! - `versions_at`: its bytes, and for each key a search for its version, and one more for each undecided one above that
//! - `dump_piece`: for each row a search, one more for each undecided version that it passes over, and the row's lines. One
//!   row more is looked at where the next one has no room
//!
//! `call` takes memory for the keys and values of its line, by the engine's step, and for the text, which keeps its
//! room; `call_lines` takes what its calls take. `make` takes it by the engine's step, and `make_within` also for its
//! look; `write` for the text, `copy_bytes` for messages and rows, `versions_at` for keys of more than 24 bytes, and
//! `state`, `held_by` and `dump_piece` for what they tell. The others take none.
//!
//! Tests: `embed/test`, `embed/random`, outside the gate.
#![tactic(auto)]

mod bounded;
mod database;
mod dumping;
mod event_record;
mod held;
mod message_bytes;
mod several;
mod state;
mod typed;
mod versions;

pub use bounded::{Bounded, BoundedError};
pub use database::{CallError, Database};
pub use dumping::{DumpPiece, DumpPlace};
pub use event_record::EventRecord;
pub use held::HeldRecord;
pub use several::{Done, Taken};
pub use typed::{Answer, NoPosition};
pub use versions::VersionFault;
