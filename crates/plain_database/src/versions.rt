//! The checker's transactions by timestamp, each with what it wrote and read, and the versions that this makes.
//!
//! `store` is the way in: what a transaction does, and a key's newest version. `scans` and `walks` say of it what
//! stands in a span, behind a place, above closed, and between two timestamps. Below it `time_table` has the
//! transactions (`begun`, `writes`, `reads`), and `writers` the index by key.

pub mod begun;
pub mod reads;
mod scans;
pub mod store;
pub mod time_table;
mod walks;
pub mod writers;
pub mod writes;
