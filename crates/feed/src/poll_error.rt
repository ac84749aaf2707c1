//! Why a poll tells nothing.
/// Why a feed tells a seat nothing.
#[derive(Clone, Copy, Debug, PartialEq, Eq)]
pub enum PollError {
    /// No feed of the number lives.
    NoFeed = 1,
    /// Another seat opened it.
    NotOwner = 2,
    /// A growth of memory was refused.
    NoMemory = 3,
}
