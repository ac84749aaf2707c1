//! How a transaction stands.
/// How a transaction stands.
#[derive(Clone, Copy, Debug, PartialEq, Eq)]
pub enum State {
    /// It has begun, and has not ended.
    Undecided,
    /// It has committed.
    Committed,
    /// It was aborted.
    Aborted,
}
