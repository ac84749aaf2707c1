//! The one word of an oracle, and what each pass knows of it.
//!
//! A pass loads the number of the next block, and draws that block by a compare-exchange to the number above. Between any
//! two steps the word is at least each number that a pass loaded, and each block from the first to the word stands among
//! the blocks of one pass, once; no other block stands among those of any.
//!
//! ```text
//! first 0                word 0     pass 1: []          pass 2: []
//! pass 1 draws           word 1     pass 1: [0]         pass 2: []
//! pass 2 draws           word 2     pass 1: [0]         pass 2: [1]
//! pass 1 draws           word 3     pass 1: [0, 2]      pass 2: [1]
//! ```
//!
//! Where two passes meet, one lends its blocks to the other, which finds in a load of the word that no block is in both,
//! and gives them back. Those lists stand in proofs alone.
ghost use Rattle.timestamps.specs.Blocks.{Compares, DrawsNext, IsDrawnOnce, Looks, borrowing, itself, newcomer, nobody, only_drawn, only_lent, opener, taking_back, without_drawn, without_lent};

use atomic_table::{Join, Play, Seat, Split, Table, TableRule};
use std::alloc::Global;
use std::collections::LinkedList;

/// The place of the next block's number.
pub(crate) const NEXT: usize = 0;

/// A pass's view. No value of it is made.
pub struct Draws {
    /// The blocks that it drew, the oldest first.
    pub drawn: LinkedList<u64>,
    /// The blocks of another pass, while the two meet.
    pub lent: LinkedList<u64>,
    /// The number that it loaded last, and the one before that.
    pub loaded: u64,
    pub earlier: u64,
    /// How often it looked at the word.
    pub looks: u64,
}

/// The rule, which is told the first block.
pub struct EachOnce;

impl TableRule<(), Draws, u64> for EachOnce {
    ghost holds = { IsDrawnOnce };

    ghost first = { opener };
}

pub type Board = Table<(), Draws, u64, EachOnce, Global>;

pub type Pass = Seat<(), Draws>;

/// A load.
pub struct Load;

impl Play<(), Draws> for Load {
    ghost then = { Looks };
}

/// A compare-exchange to the next number.
pub struct Draw;

impl Play<(), Draws> for Draw {
    ghost then = { DrawsNext };
}

/// A load while the blocks of another pass are there.
pub struct Compare;

impl Play<(), Draws> for Compare {
    ghost then = { Compares };
}

/// A new pass.
pub struct Enter;

impl Split<Draws> for Enter {
    ghost left = { itself };

    ghost right = { newcomer };
}

/// A pass hands its blocks out.
pub struct HandOut;

impl Split<Draws> for HandOut {
    ghost left = { without_drawn };

    ghost right = { only_drawn };
}

/// Another pass has them.
pub struct Borrow;

impl Join<Draws> for Borrow {
    ghost both = { borrowing };

    ghost spent = { nobody };
}

/// It hands them out again.
pub struct Return;

impl Split<Draws> for Return {
    ghost left = { without_lent };

    ghost right = { only_lent };
}

/// The first pass has them once more.
pub struct TakeBack;

impl Join<Draws> for TakeBack {
    ghost both = { taking_back };

    ghost spent = { nobody };
}
