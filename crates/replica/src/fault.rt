//! Why a replica refuses.

ghost use Rattle.std.specs.Prelude.{◌≡◌};
ghost use Rattle.replica.specs.Replicas.{code_of};
ghost use Rattle.replica.specs.declared.fault.Fault.TheVariants.{NoMemory};

use std::alloc::AllocError;

/// Why a message, or what a replica is to begin with, was refused. Nothing changed.
#[derive(Clone, Copy, Debug, PartialEq, Eq)]
pub enum Fault {
    /// The keys to begin with don't rise; or a row is at or below what was resolved last, or doesn't come
    /// after the row before it.
    NotAfter = 1,
    /// A key lies outside the span.
    OutsideSpan = 2,
    /// A resolved timestamp is at or below what was resolved last, or below the row before it.
    ResolvedBack = 3,
    /// A growth of memory was refused.
    NoMemory = 4,
}

impl Fault {
    /// Its number, from 1 to 4.
    pub fn code(self) -> u8
        ensures { result ≡ code_of self }
    {
        self as u8
    }
}

impl From<AllocError> for Fault {
    ghost from_gives = { λ _ fault. fault ≡ NoMemory };

    fn from(_refused: AllocError) -> Fault {
        Fault::NoMemory
    }
}
