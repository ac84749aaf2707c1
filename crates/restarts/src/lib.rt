//! Theorems: a database that is rebuilt from its dump goes on as the database itself does after a crash. Nothing here runs.
//!
//! A dump is a script of one session. It writes the committed versions that aren't dead once more, each at its own
//! timestamp, then closes, and collects up to the horizon. A crash is a hard closing, the cancellation of every feed that
//! lives and the release of every protection: this is all that a restart takes away. `specs/` defines both, beside the new
//! numbers of feeds and protections; [`law::law_of_restarts`] has the law.
//!
//! 10 wrote "a", 20 wrote "a" and "b", 25 deleted "b", and all three committed; 30 is undecided. Closed and the horizon are
//! 20, and feed 1 lives. A restart at 30:
//!
//! ```text
//! the dump, run               answer                 versions          closed   horizon   feeds
//! begin 20                    started                                  0        0
//! put 20 a 2                  written                a 20?
//! put 20 b 1                  written                a 20? b 20?
//! commit 20                   committed 2            a 20 b 20
//! begin 25, del 25 b, commit  .. committed 1         a 20 b 20 25
//! close 30                    closed 30 0            a 20 b 20 25      30       0
//! collect 20                  collected 20 0         a 20 b 20 25      30       20        none, and the next is 1
//!
//! the crash, run              answer
//! (before it)                                        a 20 30? b 20 25  20       20        1
//! closehard 30                closed 30 1            a 20 b 20 25      30       20        1
//! cancel 1                    cancelled              a 20 b 20 25      30       20        none, and the next is 2
//! ```
//!
//! 1. What is kept after the dump is what is kept after the crash, but for how many feeds and protections there have been.
//! 2. Answers rest on what is kept, so from there on they are the same but for these numbers.
//!
//! `jobs` writes the dump of a transcript, by `plain_database`. Tests: `job_tests`.
#![tactic(auto)]

pub mod law;
