//! Tests of the layers of storage and rules. They show that calls succeed where memory is there, and that the answers
//! are the intended ones, by small worked cases. Nothing depends on this crate.
//!
//! They stand apart from the crates that they test, since the gate proves a crate that has tests two times.
//!
//! ```text
//! closings    `closing`: closed, the protections that stand, and the least of them
//! collections `mvto_rules`: horizons, held back by closed, protections and feeds, and the versions that went
//! feeds       `feed`: openings and polls above the greatest timestamp
//! keys        `key_set`: keys that come and go, and those above a key
//! tables      `key_table`: the numbers of keys, while many come and go
//! transactions `txn_table`: which stand and how, and those that are undecided
//! versions    `version_chain`: writes, commits, aborts, collections, and searches
//! marks       `read_marks`: spans that overlap, neighbours that are joined, a reader a gap, readers that are forgotten
//! rules       `mvto_rules`: who is blocked, who comes too late, which spans are marked, what is closed and what it ended
//! script      the reading of a script
//! ```
//!
//! A script has a line for each call, with the answer that is wanted behind `=`. The first lines of `closings`, and
//! some further ones:
//!
//! ```text
//! line                 the call                      the answer wanted
//! close 30 20=19       close to 30, 20 undecided     19: closed stops just below 20
//! close 10 -=19        close to 10                   19: closed never falls
//! hard 50=50           close hard to 50              50
//! protect 25=1         protect 25                    1, the number of the protection
//! protect 12=2         protect 12                    2
//! least=12             the least protection          12
//! release 2=yes        release protection 2          it stood
//! release 2=no         release it once more          it doesn't stand
//! ```
#![tactic(auto)]

#[cfg(test)]
mod tests;
