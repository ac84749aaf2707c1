//! How a transaction ended, or stands: its seat and state.
ghost use Rattle.std.specs.Prelude.{◌≡◌};
ghost use Rattle.txn_table.specs.States.{state_after};

use spans::State;

/// How a transaction ends.
#[derive(Clone, Copy, Debug, PartialEq, Eq)]
pub enum Outcome {
    /// It commits.
    Committed,
    /// It is aborted.
    Aborted,
}

/// Whose a transaction is, and how it ended. One that is undecided has `Committed`.
#[derive(Drop)]
pub(crate) struct Ending {
    pub(crate) seat: u8,
    pub(crate) outcome: Outcome,
}

impl Ending {
    /// The seat that began it, and how it stands, unless it is undecided.
    pub(crate) fn standing(&self) -> (u8, State)
        ensures { result ≡ (self.now.seat, state_after self.now.outcome) }
    {
        match self.outcome {
            Outcome::Committed => (self.seat, State::Committed),
            Outcome::Aborted => (self.seat, State::Aborted),
        }
    }
}
