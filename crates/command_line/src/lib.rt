//! The command line of `mvfeed`: which job its words ask for, what each job does, and which exit status and sentence its
//! end leaves the caller.
//!
//! `mvfeed` hands [`job_in`] its words, and [`done`] the [`Job`] with standard input, standard output and the text of the
//! file that the job names. Nothing else here reads or writes but sentences on standard error, and help and version on
//! standard output. The beginning of the input is kept ([`Input`]), so that a faulty line there can be told what it should
//! have been ([`hint_at`]).
//!
//! ```text
//! words                          asked for                                status, standard error
//! mvfeed run --seats 2           a run of 2 seats, ring 1024, first 0     0 at Done, 1 and a word where it failed
//! mvfeed race 2 --format 2       a race of 2 sessions, in format two      2 at Faulty, and what is wrong with the line
//! mvfeed check --events 12       a check of 12 events                     3 at No, and which event can't be right
//! mvfeed state --live            the live state after a transcript        the same
//! mvfeed dump --at 90            a dump that closes at 90 or above         the same
//! mvfeed follow --cursor 0       a follower of all keys that starts at 0  0 at NoMessages, and that there are none
//! mvfeed run --seats 0           refused                                  1, and clap's text
//! mvfeed run FILE                refused                                  the same, and `mvfeed run < FILE`
//!
//! a line of mvfeed run           the hint behind `mvfeed: line 1 has too few words, too many, or an empty one`
//! 0 begin                        begin takes 1 word: TS
//! begin 10                       a line begins with its session's number, as in `0 begin 10`
//! 0 0 begin 10 => started        a transcript's line isn't a script's: leave out its position, and `=>` with what ..
//! ```
//!
//! 1. Each job is done on its devices, and the status is its end's: `Did` in `specs/Doing.antt`, which [`done`]
//!    ensures, and which has the status of each end.
//! 2. `specs/Sentences.antt` has the sentence of each end, byte for byte.
//! 3. [`status::refused`] leaves 1 for words that clap refuses.
//! 4. No clause says what a command line asks for, which text a hint has, or that standard error was told. Tests in
//!    `job_tests` say the first two.
//!
//! Memory is taken for the words and what they ask for, for the job, and for the first MiB of its input; where that is
//! refused there is no hint. The text of a seed's file is given back before its feed is followed.
//!
//! Tests: `job_tests`.
#![tactic(auto)]

mod arguments;
mod dialects;
mod doing;
mod examples;
mod faults;
mod following;
mod forms;
mod hints;
mod input;
pub mod sentences;
pub mod status;
mod version;

pub use arguments::{Job, job_in};
pub use dialects::Dialect;
pub use doing::done;
pub use following::Seeded;
pub use forms::command;
pub use hints::{hint_at, hint_of};
pub use input::Input;
