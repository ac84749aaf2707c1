//! Tests of the program's jobs, byte for byte: scripts run, sessions that race, transcripts checked, states told, and feeds
//! followed, over readers and writers in memory that may fail. They show which bytes each job writes and how it ends.
//! Nothing depends on this crate.
//!
//! ```text
//! transactions, closings, feeds    worked transcripts
//! cases                            runs, checks and races: faulty lines, limits, verdicts, devices that fail
//! dumps                            the dump of a transcript's database
//! states                           the state after a transcript, and texts without one
//! formats                          texts of format two, beside texts of format one
//! changes                          what is told of a feed but its rows; seeds
//! followed                         feeds that are followed: faulty lines, limits, the guide to caches
//! histories                        the rows that a follower tells, beside the rows of the database
//! long                             many blocks, and devices that fail after any byte
//! in_time                          answers leave before a read that may wait
//! failing_once                     a read that failed isn't tried again
//! random                           scripts of commands of all kinds
//! playing, unfolding               the reading of a case, and texts as cases write them
//! devices                          readers and writers in memory that may fail
//! ```
//!
//! A case says which job is asked for, and has the input. Behind `=` stand the end and the output, and `~256*a;` is 256
//! letters a. Two cases of runs, with 64 seats, a ring of 1024 and the first position 0:
//!
//! ```text
//! @ run 64 1024 0              @ run 64 1024 0 format 2
//! 0 begin 01                   0 begin 10
//!                              0 put 10 ~256*a; 1
//!                              0 put 10 ~257*a; 1
//! = faulty                     = faulty
//! fault 1 3 number             mvfeed 2
//!                              0 0 begin 10 => started
//!                              1 0 put 10 ~256*a; 1 => written
//!                              fault 3 4 keylength
//! ```
#![tactic(auto)]

#[cfg(test)]
mod tests;
