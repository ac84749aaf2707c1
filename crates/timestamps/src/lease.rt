//! Leases: the 32 timestamps of a block, given one by one.
//!
//! A contract sees a lease as the list of the timestamps that it still gives. A call of `next` takes no memory.
//!
//! ```text
//! the lease of block 1      [33, 34, .., 64]
//! next()  Some(33)          [34, .., 64]
//! ..
//! next()  Some(64)          []
//! next()  None              []
//! ```
ghost use Rattle.std.specs.Prelude.{◌≡◌, ◌<◌, List, ℕ, [], ◌∷◌, IfSome, IfNone, ◌+◌, ◌≤◌};
ghost use Rattle.timestamps.specs.Blocks.{timestamps_of, numbers_from};
ghost use Rattle.timestamps.specs.declared.lease.TheConstants.{BLOCKS};

use crate::ts::Ts;
use std::marker::Model;

/// How many timestamps a block has.
pub const BLOCK_SIZE: u64 = 32;

/// How many blocks there are: the numbers of one more would pass the greatest timestamp.
pub const BLOCKS: u64 = 288230376151711743;

/// The timestamps of one block, each to be given once.
#[derive(Debug, Drop)]
pub struct Lease {
    next: u64,
    left: u64,
}

impl Model for Lease {
    ghost Value = { List ℕ };

    ghost view = { λ l. numbers_from l.next l.left };

    ghost invariant = { λ l. (1 ≤ l.next) × (l.next + l.left ≤ 9223372036854775808) };
}

impl Lease {
    // The whole block.
    pub(crate) fn of(block: u64) -> Lease
        requires { block < BLOCKS }
        ensures { result ≡ timestamps_of block }
    {
        Lease {
            next: BLOCK_SIZE * block + 1,
            left: BLOCK_SIZE,
        }
    }

    /// The next timestamp of the block, or `None` once all were given.
    pub fn next(&mut self) -> Option<Ts>
        ensures some { IfSome result (λ t. self.old ≡ t ∷ self.new) }
        ensures none { IfNone result ((self.old ≡ []) × (self.new ≡ [])) }
    {
        if self.left == 0 {
            return None;
        }
        let number = self.next;
        self.next += 1;
        self.left -= 1;
        Ts::new(number)
    }
}
