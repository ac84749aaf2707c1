//! What no clause says of crates by themselves.

mod consumers;
mod engines;
mod replicas;
mod texts;
mod words;
