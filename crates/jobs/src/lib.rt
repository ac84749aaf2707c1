//! Five jobs of the program `mvfeed`, over any source and any sink: it runs a script, has a script's sessions race, checks
//! a transcript, tells the state after it, and writes the script that rebuilds its database. Each job is one function, from the first byte read to the last one
//! written. The loop of a run, line by line, stands in `sessions`, the threads of a race in `races`, and the sixth job,
//! which follows a feed, in `follow`.
//!
//! `mvfeed` calls [`run_io`], [`race_io`], [`check_io`], [`state_io`] and [`dump_io`] with its standard input and output. Another
//! program that has bytes from elsewhere calls them in the same way, and [`verdict`], [`state_text`] or
//! [`dump_of_text`] where it has the text already. Each ends with an [`End`].
//!
//! 1. The bytes read, the bytes written and the end say together how the job went: each contract goes from bytes to
//!    bytes.
//! 2. A run writes what it has before each read, since a read may wait; tests say so, and no clause can. A race, a check,
//!    a state and a dump answer once they have read everything, and write nothing before that.
//! 3. A read that failed is the end `Input`, and a write that failed is the end `Output`. No other end comes of a
//!    failed read or write.
//!
//! ```text
//! job      reads                                  writes
//! run      0 begin 10\n0 jump\n                   0 0 begin 10 => started\nfault 2 2 unknowncommand\n    ends Faulty
//! race     0 begin 10\n1 begin 20\n               0 1 begin 20 => started\n1 0 begin 10 => started\n     ends Done
//! check    0 0 stats => started\n                 no 0\n                                                 ends No
//! state    0 0 close 5 => closed 5 0\n            {"kind":"database","closed":"5","horizon":"0",..}\n     ends Done
//! dump     0 0 close 5 => closed 5 0\n            0 close 5\n0 collect 0\n                               ends Done
//! ```
//!
//! Costs:
//!
//! - `run_io`: for each line its bytes, and the database's call
//! - `race_io`: the script's bytes, for each call the database's call, and a sort of all events by position
//! - `check_io`, `verdict`: the transcript's bytes, and for each event the checker's `take`
//! - `state_io`, `state_text`: the same, and once the checker's `report` and its text
//! - `dump_io`, `dump_of_text`: the same, and once the checker's `dump` and its text
//!
//! All take memory. A run keeps the database, and a block of input and of output. A race keeps the whole script, a
//! thread for each session, and all events until the end. A check, a state and a dump keep the whole transcript, the
//! checker, and one event at a time, a state then the report and its text, and a dump its rows and its text.
//!
//! Tests: `job_tests`.
#![tactic(auto)]

mod check;
mod dump;
mod ending;
mod race;
mod run;
mod state;
mod verdicts;

pub use check::check_io;
pub use dump::{dump_io, dump_of_text};
pub use ending::End;
pub use race::{RaceOptions, race_io};
pub use run::{DEFAULTS, run_io};
pub use state::{Detail, state_io, state_text};
pub use verdicts::verdict;
