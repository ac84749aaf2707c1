//! Tests of the program's command line: what words ask for, what the jobs of command lines write over inputs in memory, and
//! which status and sentence each leaves.
//! Nothing depends on this crate.
//!
//! ```text
//! command_lines    what words ask for, and the status and sentence of each end
//! doing            what the jobs of command lines write, their statuses, hints, usage lines
//! hints            what a faulty line should have been
//! ```
//!
//! A command line has commas between its words. Two of them, each with what it asks for:
//!
//! ```text
//! mvfeed,run,--seats,1         run 1 1024 0 One
//! mvfeed,run,--seats,65        refused
//! ```
#![tactic(auto)]

#[cfg(test)]
mod tests;
