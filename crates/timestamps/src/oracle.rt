//! The oracle: it hands out blocks of timestamps to many threads, and no thread waits for another.
//!
//! Block `b` has the timestamps `32b + 1` to `32b + 32`. The oracle is one word, the number of the next block. Each
//! thread has a pass of its own, and no block is drawn twice, so no two leases share a timestamp.
//!
//! ```text
//! Oracle::new(alloc, 0, 2)      word 0
//! draw(one)   Ok([1 ..= 32])    word 1
//! draw(two)   Ok([33 ..= 64])   word 2
//! draw(one) finds 2, and another draw comes before its compare-exchange:
//!             Err(Contended { seen: 2, found: 3 })
//! draw(one)   Ok([97 ..= 128])  word 4
//! meet(one, two)                none of [0, 3] is among [1], nor the other way round
//! ..
//! word 288230376151711743       Err(Spent), from here on
//! ```
//!
//! Cost: `new` takes memory. `draw` is a load and a compare-exchange, `meet` five loads; neither takes memory or waits.
ghost use Rattle.std.specs.Prelude.{◌≡◌, ◌<◌, ◌≤◌, ◌+◌, ◌++◌, [], ◌∷◌, length, All, IfOk, IfErr, OnOk, OnErr};
ghost use Rattle.std.specs.List.Sorted.{IsStrictlyIncreasing};
ghost use Rattle.timestamps.specs.Blocks.{timestamps_of, AreApart};
ghost use Rattle.timestamps.specs.declared.lease.TheConstants.{BLOCKS, BLOCK_SIZE};

use crate::blocks::{
    Board, Borrow, Compare, Draw, Enter, HandOut, Load, NEXT, Pass, Return, TakeBack,
};
use crate::lease::{BLOCKS, Lease};
use atomic_table::Table;
use std::alloc::{AllocError, Global};

/// The oracle, which hands out the blocks.
#[derive(Drop)]
pub struct Oracle {
    board: Board,
    ghost one_word: { board.shared.table_id.words ≡ 1 },
}

/// The right of one thread to draw.
#[derive(Drop)]
pub struct OraclePass {
    seat: Pass,
    ghost nothing_lent: { seat.me.0.lent ≡ [] },
    ghost rising: { IsStrictlyIncreasing seat.me.0.drawn },
}

/// Why there was no lease.
#[derive(Clone, Copy, Debug, PartialEq, Eq)]
pub enum DrawError {
    /// Another pass drew a block between the two steps: the word was `seen`, and then `found`.
    Contended { seen: u64, found: u64 },
    /// No block is left.
    Spent,
}

impl Oracle {
    ghost use Rattle.timestamps.specs.Passes.{drawn, loaded, earlier, looks, leased, IsOf, IsSame, IsNew, IsReason, steps_of};

    /// An oracle whose first lease is of block `first_block`, and its passes. At [`BLOCKS`] or above there is no lease.
    pub fn new(
        alloc: Global,
        first_block: u64,
        passes: u32,
    ) -> Result<(Oracle, Vec<OraclePass>), AllocError>
        requires { 0 < passes }
        ensures count { IfOk result (λ r. length r.1.items ≡ passes) }
        ensures limits { (BLOCK_SIZE ≡ 32) × (BLOCKS ≡ 288230376151711743) }
        ensures passes { IfOk result (λ r. All (IsNew r.0 first_block) r.1.items) }
    {
        let (board, mut source) = Table::of_words(alloc, &[first_block], &first_block)?;
        let mut made = Vec::new(alloc);
        for _ in 0..passes {
            let seat = board.shared.split_seat::<Enter>(&mut source);
            made.push(OraclePass { seat })?;
        }
        Ok((Oracle { board }, made))
    }

    /// The next block, by a load and a compare-exchange. `Contended` and `Spent` draw nothing; after `Spent` each later
    /// draw of the pass is `Spent` as well.
    pub fn draw(&self, pass: &mut OraclePass) -> Result<Lease, DrawError>
        requires own { IsOf self.now pass.old }
        ensures same { IsSame pass.old pass.new }
        ensures rises { loaded pass.old ≤ loaded pass.new }
        ensures steps { looks pass.new ≡ looks pass.old + steps_of result }

        // The block is the one that the load found, and none of the pass before had its timestamps.
        ensures lease { IfOk result (λ lease. lease ≡ timestamps_of (loaded pass.new)) }
        ensures drawn { OnOk result (drawn pass.new ≡ drawn pass.old ++ loaded pass.new ∷ []) }
        ensures in_range { OnOk result (loaded pass.new < BLOCKS) }
        ensures fresh { IfOk result (λ lease. AreApart (leased pass.old) lease) }
        ensures rising { IsStrictlyIncreasing (drawn pass.new) }

        ensures refused { OnErr result (drawn pass.new ≡ drawn pass.old) }
        ensures reason { IfErr result (IsReason (earlier pass.new) (loaded pass.new)) }
    {
        let shared = &self.board.shared;
        let block = shared.load::<Load>(&mut pass.seat, NEXT);
        if block >= BLOCKS {
            return Err(DrawError::Spent);
        }
        let found = shared.compare_exchange::<Draw>(&mut pass.seat, NEXT, block, block + 1);
        if found != block {
            return Err(DrawError::Contended { seen: block, found });
        }
        Ok(Lease::of(block))
    }

    /// Two passes learn that no timestamp was leased to both. What each drew stays.
    pub fn meet(&self, one: &mut OraclePass, other: &mut OraclePass)
        requires own { IsOf self.now one.old × IsOf self.now other.old }
        ensures one { IsSame one.old one.new × (drawn one.new ≡ drawn one.old) }
        ensures other { IsSame other.old other.new × (drawn other.new ≡ drawn other.old) }
        ensures rises { (loaded one.old ≤ loaded one.new) × (loaded other.new ≡ loaded other.old) }
        ensures blocks { AreApart (drawn one.new) (drawn other.new) }
        ensures leases { AreApart (leased one.new) (leased other.new) }
    {
        let shared = &self.board.shared;
        let theirs = shared.split_seat::<HandOut>(&mut other.seat);
        shared.join_seat::<Borrow>(&mut one.seat, theirs);
        shared.load::<Compare>(&mut one.seat, NEXT);
        let theirs = shared.split_seat::<Return>(&mut one.seat);
        shared.join_seat::<TakeBack>(&mut other.seat, theirs);
    }
}
