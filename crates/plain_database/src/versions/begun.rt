//! One of the checker's transactions.
ghost use Rattle.std.specs.Prelude.{◌≡◌};
ghost use Rattle.plain_database.specs.Table.{new_begun};

use crate::versions::reads::ReadList;
use crate::versions::writes::Writes;
use spans::State;
use std::alloc::Global;

/// A transaction that began: whose it is, how far it is, what it wrote and what it read.
#[derive(Drop)]
pub struct Begun {
    /// The seat that began it.
    pub seat: u8,
    /// Undecided also after a hard closing that aborted it: closed tells.
    pub state: State,
    pub writes: Writes,
    pub reads: ReadList,
}

impl Begun {
    /// One that has just begun.
    pub fn new(alloc: Global, seat: u8) -> Begun
        ensures { result ≡ new_begun seat }
    {
        Begun {
            seat,
            state: State::Undecided,
            writes: Writes::new(alloc),
            reads: ReadList::new(alloc),
        }
    }
}
