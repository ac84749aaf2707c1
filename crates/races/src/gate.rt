//! Where sessions that race are held.

/// A gate that a session passes before each of its calls and once after the last, so that a test can have the
/// calls of sessions in an order of its own.
pub trait Gate {
    /// Before call `call` of the session of this seat, from 0, or after its last.
    fn pass(&self, seat: u8, call: u64);
}

/// Holds nobody.
#[derive(Clone, Copy, Debug)]
pub struct Open;

impl Gate for Open {
    fn pass(&self, _seat: u8, _call: u64) {}
}
