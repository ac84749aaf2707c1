//! A script served while it is read: each line is a call of one session, which is made on a shared database in the
//! order of the lines, and the text of its event goes out.
//!
//! `jobs` and the examples call [`serve`], over any reader and any writer ([`Reading`], [`Writing`]) or any [`Source`]
//! and [`Sink`] of their own. Another front end that reads lines and writes text has the same two ends in [`Lines`] and
//! [`Output`]; a program that answers once it has read everything has [`read_whole`] and [`write_whole`]. Sessions that
//! race stand in `races`.
//!
//! 1. The bytes that were read are the lines of the calls made, at most one line more, and those that wait in the
//!    block.
//! 2. The bytes that were written, and those that wait to be, are the text of the events so far.
//! 3. The seat that called last has seen all events: another seat meets it before its own call, so that the order of
//!    the calls is the order of the history.
//!
//! ```text
//! read                  waits in the block             waits to be written             written
//! 0 begin 10\n0 put 1   0 begin 10\n0 put 1
//!                       0 put 1                        0 0 begin 10 => started\n
//! (a read may wait)     0 put 1                                                        0 0 begin 10 => started\n
//! 0 a 1\n               0 put 10 a 1\n (whole now)
//!                                                      1 0 put 10 a 1 => written\n
//! (the end)                                                                            .. 1 0 put 10 a 1 => written\n
//! ```
//!
//! Costs:
//!
//! - `serve`, a line: its bytes, and the database's call; six loads more where another seat called before
//! - `serve`, a read: for 65536 bytes at least, and a line more at most; the waiting bytes of a line are moved to the
//!   front once at most, and only new bytes are searched for its end
//! - `serve`, a write: one where 65536 bytes or more wait, one before each read and one at the end, and one more for the
//!   line of a fault or of spent positions
//! - `read_whole`, `write_whole`: the bytes, once
//! - `write_transcript`: the bytes of its text, once
//!
//! `serve` takes memory at the start, for the database, then for a block of input, one of output and the line that may
//! end the output; then for each line's keys and values, for the answer, and where the text of answers outgrows its
//! block. So it takes none to tell of a faulty line or of spent positions. `read_whole` takes it for a block and all
//! bytes, `write_transcript` for a block, `write_whole` none. A read or a write that fails in any way, an interrupted
//! one too, is not tried again.
//!
//! Tests: `job_tests`, `session_tests`.
#![tactic(auto)]

mod callers;
mod devices;
mod ending;
mod last_line;
mod lines;
mod output;
mod serving;
mod whole;

pub use devices::{ReadFailed, Reading, Sink, Source, WriteFailed, Writing};
pub use ending::ServeEnd;
pub use lines::Lines;
pub use output::Output;
pub use serving::serve;
pub use shared_db::{Config, OpenError};
pub use whole::{read_whole, write_transcript, write_whole};
